//! The machine that carries out the tasks of a program, event by event: some processors on any memory side.
#![tactic(auto)]

mod engine;
pub mod laws;
mod lent;
mod outcome;
mod roster;

pub use cdc_fabric::Counts;
pub use cdc_machine::Effect;
pub use cdc_task::Piece;
pub use engine::Engine;
pub use outcome::{Outcome, Tally};
