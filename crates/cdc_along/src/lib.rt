//! Tasks go along the paths of their program: definitions and laws alone.
//!
//! `specs/` has what it is to go along paths (`Along`), and the same for each reached task by itself (`Tasks`).
#![tactic(auto)]

pub mod laws;
