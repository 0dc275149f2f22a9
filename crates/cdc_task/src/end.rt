//! How a step ends.

use cdc_prog::{FaultKind, Piece};

/// How a step ends.
#[derive(Clone, Copy, Debug, PartialEq, Eq)]
pub enum StepEnd {
    /// The task goes on.
    Went,
    /// It printed a piece, and goes on.
    Printed(Piece),
    /// It forked the iterations of the DOALL of this number: how many, the index of the first, and the step.
    Forked {
        number: u32,
        count: u32,
        from: i64,
        by: i64,
    },
    /// An iteration ended.
    Joined,
    /// The program ended.
    Halted,
    /// A fault, and the line of its statement.
    Faulted(FaultKind, u32),
}
