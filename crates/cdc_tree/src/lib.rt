//! Expressions, statements and program units as they are written, with the place of each.
//!
//! `specs/` has each of them without the pointers of its boxes.
#![tactic(auto)]

mod form;
mod refusal;
mod tree;
mod unit;

pub use form::{Bound, Declared, Define, Ending, Form, Loop, Shown, Spot, Statement};
pub use refusal::ParseRefusal;
pub use tree::{Intrinsic, Named, Tree};
pub use unit::{Branch, Node, UnitText};
