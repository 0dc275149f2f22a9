//! The events of a schedule.

/// One event, of the processor that it names first.
#[derive(Clone, Copy, Debug, PartialEq, Eq)]
pub enum Event {
    /// The processor takes the task of this number.
    Take(u32, u64),
    /// The processor carries out one instruction of its task, or, where it holds none, closes the epoch.
    Step(u32),
    /// As a step, or, where the processor holds no task and the epoch has one left, the taking of the least.
    Next(u32),
    /// The processor's cache drops the line of this number.
    Evict(u32, u64),
}

// So many times one event.
#[derive(Clone, Copy, Debug, PartialEq, Eq)]
pub(crate) struct Repeated {
    pub(crate) event: Event,
    pub(crate) count: u32,
}
