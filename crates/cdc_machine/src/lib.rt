//! The machine as a definition: processors that take the tasks of an epoch and carry them out, event by event, on any
//! memory side; and what is true of it after every list of events.
#![tactic(auto)]

mod effect;
pub mod laws;

pub use effect::Effect;
