//! The header of a schedule: the coherence scheme, the processors, the caches, and the events that follow the listed ones.

/// How stale copies are kept from being read.
#[derive(Clone, Copy, Debug, PartialEq, Eq)]
pub enum SchemeName {
    /// No caches: every read goes to memory.
    Direct,
    /// Selective invalidation: a change bit for each cached word.
    Si,
    /// Version control: a version number for each object and each cached word.
    Vc,
    /// Two-phase invalidation: a tag of its epoch for each cached word.
    Tpi,
}

/// The shape of one processor's cache.
#[derive(Clone, Copy, Debug, PartialEq, Eq)]
pub struct Geometry {
    /// The words of a line: a power of two from 1 to 16.
    pub words: u32,
    /// The sets of lines: a power of two from 1 to 1,024.
    pub sets: u32,
    /// The lines that a set has room for, from 1 to 8.
    pub ways: u32,
}

/// The events that follow the listed ones.
#[derive(Clone, Copy, Debug, PartialEq, Eq)]
pub enum TailKind {
    /// None.
    None,
    /// The processors in turn, from 0 on, without end.
    RoundRobin,
    /// Processors and evictions by a generator of random numbers that starts with this one, without end.
    Random(u64),
}

/// The header of a schedule. Its limits are the definition `IsHeader`.
#[derive(Clone, Copy, Debug, PartialEq, Eq)]
pub struct Header {
    pub scheme: SchemeName,
    /// The bits of a version number or a tag, from 2 to 16; 0 for a scheme that has neither.
    pub width: u32,
    /// The number of processors, from 1 to 64.
    pub procs: u32,
    /// The shape of each processor's cache.
    pub geometry: Geometry,
    /// The number of events after which a run is stopped, at most `10^12`.
    pub bound: u64,
    pub tail: TailKind,
}
