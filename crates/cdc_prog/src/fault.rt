use crate::program::FaultKind;

/// A fault of a program, and the line of its statement.
#[derive(Clone, Copy, Debug, PartialEq, Eq)]
pub struct Fault {
    pub kind: FaultKind,
    pub line: u32,
}
