//! The statements of a source.
#![tactic(auto)]

mod commas;
mod declaration;
mod heads;
mod kind;
mod laws;
mod lines;
mod operator;
mod parts;
mod reading;
mod refusal;
mod simple;
mod token;
mod word;

pub use cdc_tree::{
    Bound, Branch, Declared, Define, Ending, Form, Intrinsic, Loop, Named, Node, ParseRefusal,
    Shown, Spot, Statement, Tree, UnitText,
};
pub use laws::{one_statement, same_grammar};
pub use lines::statements;
