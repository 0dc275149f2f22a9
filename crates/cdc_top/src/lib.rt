//! The top call: it reads the words of a command line and writes what `cdcc` prints.
#![tactic(auto)]

mod check;
mod input;
mod limits;
mod play;
mod report;
mod run;
mod seq;
mod source;
mod status;
mod tool;

pub use status::{OUT_OF_MEMORY, READ_FAULT, WRITE_FAULT};
pub use tool::run_tool;
