//! The words of a command line, read by the command table.
#![tactic(auto)]

mod command;
mod matched;
mod parser;
mod scale;
mod words;

pub use command::Command;
pub use words::read_command;
