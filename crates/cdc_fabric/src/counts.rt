//! What a processor's accesses are counted as.

ghost use Rattle.std.specs.Prelude.{◌≡◌};
ghost use Rattle.cdc_fabric.specs.Counting.{no_counts, after_read, after_drop, after_boundary, without_steps};

/// What a read was.
#[derive(Clone, Copy, Debug, PartialEq, Eq)]
pub enum Access {
    /// A copy served a read that is marked Ordinary.
    OrdinaryHit,
    /// A copy served a read that is marked Time.
    MarkedHit,
    /// Memory served it; `evicted` where a line was dropped to make room.
    Miss { evicted: bool },
}

/// The counts of a processor. Each stays at the last value of u64 once it is there.
#[derive(Clone, Copy, Debug, PartialEq, Eq)]
pub struct Counts {
    /// Instructions.
    pub steps: u64,
    pub reads: u64,
    /// Hits of reads that are marked Ordinary.
    pub ordinary: u64,
    /// Hits of reads that are marked Time.
    pub marked: u64,
    pub misses: u64,
    /// Lines that were dropped, to make room or by an event.
    pub evicted: u64,
    /// Words that boundaries made invalid.
    pub invalidated: u64,
}

impl Counts {
    /// No count yet.
    pub fn zero() -> Counts
        ensures { result ≡ no_counts }
    {
        Counts {
            steps: 0,
            reads: 0,
            ordinary: 0,
            marked: 0,
            misses: 0,
            evicted: 0,
            invalidated: 0,
        }
    }

    /// The same with no steps.
    pub fn without_steps(self) -> Counts
        ensures { result ≡ without_steps self }
    {
        Counts { steps: 0, ..self }
    }

    /// Counts a read.
    pub fn read(&mut self, access: Access)
        ensures { self.new ≡ after_read access self.old }
    {
        self.reads = self.reads.saturating_add(1);
        match access {
            Access::OrdinaryHit => self.ordinary = self.ordinary.saturating_add(1),
            Access::MarkedHit => self.marked = self.marked.saturating_add(1),
            Access::Miss { evicted } => {
                self.misses = self.misses.saturating_add(1);
                if evicted {
                    self.evicted = self.evicted.saturating_add(1);
                }
            }
        }
    }

    /// Counts a line that an event dropped.
    pub fn drop_line(&mut self)
        ensures { self.new ≡ after_drop self.old }
    {
        self.evicted = self.evicted.saturating_add(1);
    }

    /// Counts the words that a boundary made invalid.
    pub fn invalidate(&mut self, words: u64)
        ensures { self.new ≡ after_boundary words self.old }
    {
        self.invalidated = self.invalidated.saturating_add(words);
    }
}
