//! How far a run has come.

ghost use Rattle.std.specs.Prelude.{◌≡◌, ◌≤◌, ◌+◌, ◌<◌, ◌^◌};
ghost use Rattle.cdc_replay.specs.Effects.{at_start, counted, passed, can_go_on};

use cdc_epoch::Outcome;
use cdc_machine::Effect;

/// How far a run has come.
#[derive(Clone, Copy)]
pub struct Progress {
    /// The number of events that may still be applied.
    pub left: u64,
    /// The number of idle events so far.
    pub idle: u64,
    /// Whether the last line of the output is open.
    pub is_open: bool,
    /// How the machine has ended, where it has.
    pub end: Option<Outcome>,
}

impl Progress {
    /// Before the first event of a run with this bound.
    pub fn start(bound: u64) -> Progress
        ensures { result ≡ at_start bound }
    {
        Progress {
            left: bound,
            idle: 0,
            is_open: false,
            end: None,
        }
    }

    /// Counts an event by its effect.
    #[inline(always)]
    pub fn count(&mut self, effect: Effect)
        requires some { 1 ≤ self.old.left }
        requires room { self.old.idle + 1 < 2 ^ 64 }
        ensures { self.new ≡ counted effect self.old }
    {
        self.left -= 1;
        if let Effect::Stepped = effect {
            return;
        }
        match effect {
            Effect::Idle => self.idle += 1,
            Effect::Ended => self.end = Some(Outcome::Done),
            Effect::Faulted(kind, line) => self.end = Some(Outcome::Fault(kind, line)),
            _ => {}
        }
    }

    /// Counts so many idle events.
    pub fn pass(&mut self, idle: u64)
        requires some { idle ≤ self.old.left }
        requires room { self.old.idle + idle < 2 ^ 64 }
        ensures { self.new ≡ passed idle self.old }
    {
        self.left -= idle;
        self.idle += idle;
    }

    /// Whether an event may be applied, and the machine has not ended.
    #[inline(always)]
    pub fn can_go_on(&self) -> bool
        ensures { result ≡ can_go_on self.now }
    {
        self.left > 0 && self.end.is_none()
    }
}
