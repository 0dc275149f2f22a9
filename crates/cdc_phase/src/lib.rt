//! Two-phase invalidation: tags of epochs, which wrap, with a reset as each of the two phases begins.
#![tactic(auto)]

mod counter;
mod laws;
mod phase;
#[cfg(test)]
mod tests;

pub use counter::Counter;
pub use laws::ages_are_true;
pub use phase::Phase;
