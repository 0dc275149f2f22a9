//! The code of a program. Each statement is passed once, and its instructions are written behind the others; the operand
//! of a jump forward is written when the place where it leads to is known.
#![tactic(auto)]

mod access;
mod calls;
mod conditions;
mod copies;
mod expressions;
mod jumps;
mod program;
mod statements;
mod steps;
mod streams;

pub use program::emit;
