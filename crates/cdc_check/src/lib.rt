//! The resolved program of units, or the first refusal.
#![tactic(auto)]

mod constructs;
mod copies;
mod expressions;
mod laws;
mod layout;
mod meaning;
mod objects;
mod program;
mod progress;
mod refusal;
mod refuse;
mod simple;
mod units;

pub use laws::pointerless;
pub use program::check;
pub use refusal::CheckRefusal;
