//! Statements as they are written.

use crate::tree::{Named, Tree};
use cdc_base::{List, Place};

/// A dimension in a declaration: its lower bound, if one is written, and its upper bound.
#[derive(Drop)]
pub struct Bound {
    pub low: Option<Tree>,
    pub high: Tree,
}

/// A declared variable; without bounds it is a scalar.
#[derive(Drop)]
pub struct Declared {
    pub name: Named,
    pub bounds: List<Bound>,
}

/// A named constant and its value.
#[derive(Drop)]
pub struct Define {
    pub name: Named,
    pub value: Tree,
}

/// What an assignment or a READ stores into; without subscripts it is a whole name.
#[derive(Drop)]
pub struct Spot {
    pub name: Named,
    pub subs: List<Tree>,
}

/// The controls of a DO or a DOALL.
#[derive(Drop)]
pub struct Loop {
    pub var: Named,
    pub from: Tree,
    pub to: Tree,
    pub by: Option<Tree>,
}

/// An item of a PRINT.
#[derive(Drop)]
pub enum Shown {
    /// A text without its quotes.
    Text(List<u8>),
    Value(Tree),
}

/// What is written after END of a unit.
#[derive(Drop)]
pub enum Ending {
    Plain,
    Program(Option<Named>),
    Subroutine(Option<Named>),
}

/// A statement without its place (ISO/IEC 1539:1991, sections 5, 7, 8, 9, 11 and 12). A list is
/// empty where its part is left out.
#[cycle(form)]
#[derive(Drop)]
pub enum Form {
    Program(Named),
    /// The name and the dummy arguments.
    Subroutine(Named, List<Named>),
    End(Ending),
    ImplicitNone,
    Integer(List<Declared>),
    Parameter(List<Define>),
    Assign(Spot, Tree),
    IfThen(Tree),
    ElseIf(Tree),
    Else,
    EndIf,
    /// An IF with one statement: an assignment, a CALL, a PRINT or a READ.
    LogicalIf(Tree, Box<Statement>),
    Do(Loop),
    EndDo,
    /// The controls and the private names.
    Doall(Loop, List<Named>),
    EndDoall,
    /// The name and the actual arguments.
    Call(Named, List<Tree>),
    Print(List<Shown>),
    Read(List<Spot>),
}

/// A statement, and the place of its first token.
#[cycle(form)]
pub struct Statement {
    pub place: Place,
    pub form: Form,
}

/// Written out, so that where a statement is let go there is a call, and not each form once more.
impl Drop for Statement {
    fn drop(self) {
        let Statement { place: _, form: _ } = self;
    }
}
