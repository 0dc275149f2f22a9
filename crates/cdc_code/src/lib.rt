//! The code of a program: instructions, what each does to a task, and the code of each statement.
#![tactic(auto)]

mod code;
mod instr;
pub mod laws;
mod room;

pub use cdc_prog::{FaultKind, Mark, Var};
pub use code::Code;
pub use instr::{Instr, Step};
pub use room::{ARGUMENTS, DEPTH, LOOPS, NEST, SLOTS, STACK};
