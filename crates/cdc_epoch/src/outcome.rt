//! How a run ends, and what it counts.

use cdc_prog::FaultKind;

/// The events of a run: how many were applied, and how many of these were idle.
#[derive(Clone, Copy, Debug, PartialEq, Eq)]
pub struct Tally {
    pub events: u64,
    pub idle: u64,
}

/// How a run ended.
#[derive(Clone, Copy, Debug, PartialEq, Eq)]
pub enum Outcome {
    Done,
    /// A fault, by its kind and its line.
    Fault(FaultKind, u32),
    /// The bound was reached, or the events ended, before the machine did.
    Stopped,
    /// A line of the schedule that has none of the forms of an event, by its number.
    BadEvent(u32),
    /// The schedule could not be read.
    ReadFault,
    /// The sink failed.
    SinkFault,
}
