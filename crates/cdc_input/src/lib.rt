//! The records of an input file.
#![tactic(auto)]

mod file;
mod line;
#[cfg(test)]
mod tests;

pub use file::{InputRecords, InputRefusal, records};
