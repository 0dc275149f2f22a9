use crate::program::FaultKind;

/// How the run of a program ends.
#[derive(Clone, Copy, Debug, PartialEq, Eq)]
pub enum Plain {
    Done,
    /// A fault, and the line of its statement.
    Fault(FaultKind, u32),
    /// The sink failed.
    SinkFault,
    /// Memory ran out before anything was written.
    Memory,
}
