//! The sequential meaning of a program, carried out.
#![tactic(auto)]

mod cell;
mod doall;
mod exec;
mod expr;
mod folded;
mod frame;
mod print;
mod read;
mod run;
mod steps;

pub use cdc_prog::Plain;
pub use run::{Ran, run_lines, run_plain};
