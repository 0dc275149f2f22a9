//! Selective invalidation: a change bit with each cached word, which a boundary sets.
#![tactic(auto)]

mod select;
#[cfg(test)]
mod tests;

pub use select::Select;
