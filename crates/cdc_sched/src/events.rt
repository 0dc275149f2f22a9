//! Events, one after another.

ghost use Rattle.std.specs.Prelude.{◌≡◌, ◌≤◌, ◌+◌, ◌||◌, ℕ, Bool, Option, Some};
ghost use Rattle.cdc_sched.specs.Told.{Told, Answer, is_read_fault, NamesProcessor, ComesDown, Gives, HasEventCause, PassedOver};

use crate::event::Event;

/// Why an event is not given.
#[derive(Clone, Copy, Debug, PartialEq, Eq)]
pub enum EventRefusal {
    /// The line of this number has none of the forms of an event.
    BadEvent(u32),
    /// The schedule could not be read.
    ReadFault,
}

/// Events, one after another.
///
/// A value may tell the events that it has still to give, and what follows them (`told`). It tells a number of processors
/// (`procs`), a count of faults (`faults`), which never falls, a number of events still to come (`left`), whether a call
/// has answered `ReadFault` (`failed`), and the last answer of `next_event` (`last`).
pub trait Events {
    /// The number of processors, which no call changes.
    ghost procs: { Self → ℕ };

    /// How often a read has failed, up to the last value of `u64`.
    ghost faults: { Self → ℕ };

    /// The number of events still to come, which falls with each event.
    ghost left: { Self → ℕ };

    /// Whether a call has answered `ReadFault`.
    ghost failed: { Self → Bool };

    /// The last answer, where there was one.
    ghost last: { Self → Option Answer };

    /// The events that it has still to give and the bad line after them, where it tells them.
    ghost told: { Self → Option Told };

    /// The next event; none behind the last. It names a processor below the number of processors.
    ///
    /// # Errors
    ///
    /// `BadEvent` with the number of a line that has none of the forms, behind the events of the lines before it.
    /// `ReadFault` only where the count of faults rose, or where it was answered before.
    fn next_event(&mut self) -> Result<Option<Event>, EventRefusal>
        ensures procs { procs self.new ≡ procs self.old }
        ensures below { NamesProcessor (procs self.old) result }
        ensures left { ComesDown (left self.old) (left self.new) result }
        ensures failed { failed self.new ≡ (failed self.old || is_read_fault result) }
        ensures last { last self.new ≡ Some result }
        ensures told { Gives (told self.old) (told self.new) result }
        ensures cause { HasEventCause (failed self.old) (faults self.old) (faults self.new) result };

    /// Passes over events that are the same as the one that was given last and come directly behind it, at most this
    /// many, and gives their number. The last answer stays.
    fn pass_same(&mut self, most: u64) -> u64
        ensures most { result ≤ most }
        ensures procs { procs self.new ≡ procs self.old }
        ensures left { left self.new + result ≤ left self.old }
        ensures failed { failed self.new ≡ failed self.old }
        ensures faults { faults self.new ≡ faults self.old }
        ensures last { last self.new ≡ last self.old }
        ensures told { PassedOver (last self.old) (told self.old) (told self.new) result };
}
