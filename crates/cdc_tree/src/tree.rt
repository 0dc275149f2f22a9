//! Expressions and conditions as they are written.

use cdc_base::{List, Place};
use cdc_prog::{BinOp, UnOp};

/// A name in upper case, and the place of its first letter.
#[derive(Drop)]
pub struct Named {
    pub name: List<u8>,
    pub place: Place,
}

/// An intrinsic function of the language (ISO/IEC 1539:1991, section 13.10).
#[derive(Clone, Copy, PartialEq, Eq)]
pub enum Intrinsic {
    Abs,
    Mod,
    Min,
    Max,
}

/// An expression or a condition (ISO/IEC 1539:1991, section 7.1), its parentheses kept.
///
/// The place of a tree is that of its first token; a `Bin` begins where its left part begins.
#[derive(Drop)]
pub enum Tree {
    Number(Place, i64),
    /// A name without parentheses.
    Name(Named),
    /// A name with the expressions in its parentheses, at least one.
    Apply(Named, List<Tree>),
    Paren(Place, Box<Tree>),
    /// The sign `+`.
    Plus(Place, Box<Tree>),
    /// The sign `-` or `.NOT.`: the operator is Neg or Not.
    Un(Place, UnOp, Box<Tree>),
    /// `+ - * /`, a relation, `.AND.` or `.OR.`: the operator is none of Mod, Min and Max.
    Bin(BinOp, Box<Tree>, Box<Tree>),
    /// An intrinsic function and its arguments.
    Known(Place, Intrinsic, List<Tree>),
}
