use cdc_prog::{FaultKind, Piece};

/// What an event did.
#[derive(Clone, Copy, Debug, PartialEq, Eq)]
pub enum Effect {
    /// It was not enabled, or the machine has ended.
    Idle,
    /// A task was taken.
    Took,
    /// An instruction was carried out, of which nothing else is told; so is the fault of an iteration.
    Stepped,
    /// An instruction printed a piece.
    Printed(Piece),
    /// An epoch was closed, and the next one opened.
    Boundary,
    /// A line was dropped.
    Dropped,
    /// The program ended.
    Ended,
    /// The program ended with a fault at a line.
    Faulted(FaultKind, u32),
}
