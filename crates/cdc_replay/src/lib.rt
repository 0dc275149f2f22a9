//! The run of a machine over the events of a schedule: which events it applies, what it prints, and how it ends.
#![tactic(auto)]

pub mod laws;
mod progress;
mod refused;
mod run;

pub use cdc_epoch::{Outcome, Tally};
pub use run::{Played, replay};
