//! Program units as they are written.

use crate::form::Statement;
use cdc_base::List;

/// A branch of an IF construct: its IF, ELSE IF or ELSE, and what follows up to the next.
#[cycle(node)]
#[derive(Drop)]
pub struct Branch {
    pub head: Statement,
    pub body: List<Node>,
}

/// An executable statement or construct (ISO/IEC 1539:1991, section 8.1).
#[cycle(node)]
#[derive(Drop)]
pub enum Node {
    /// A statement that is no part of a construct.
    Plain(Statement),
    /// The branches, the first headed by IF and the others by ELSE IF; the branch headed by ELSE,
    /// where there is one; END IF.
    If(List<Branch>, Option<Branch>, Statement),
    /// A DO or a DOALL, its body, and its END.
    Loop(Statement, List<Node>, Statement),
}

/// A program unit (ISO/IEC 1539:1991, section 2.2), in the order in which it is written.
#[derive(Drop)]
pub struct UnitText {
    /// PROGRAM or SUBROUTINE.
    pub head: Statement,
    /// IMPLICIT NONE, where it stands.
    pub none: Option<Statement>,
    pub declarations: List<Statement>,
    pub body: List<Node>,
    pub end: Statement,
}
