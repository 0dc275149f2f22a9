//! The events of a schedule file in memory.

ghost use Rattle.std.specs.Prelude.{◌≡◌, ◌≤◌, ◌<◌, ◌+◌, ◌-◌, ◌^◌, vec_len};
ghost use Rattle.cdc_sched.specs.Events.{processor};

use crate::event::{Event, Repeated};
use crate::events::{EventRefusal, Events};
use crate::line::count_lines;
use crate::listed_line::next_listed;

/// The listed events of a schedule file in memory. It tells them, and never answers `ReadFault`.
#[derive(Debug, Drop)]
pub struct Listed {
    bytes: Vec<u8>,
    // The place of the first byte that was not read, and the number of lines before it.
    at: usize,
    above: u32,
    procs: u32,
    // What was read and has still to be given.
    pending: Repeated,
    last: Option<Result<Option<Event>, EventRefusal>>,
    ghost within: { at ≤ vec_len bytes },
    ghost room: { above + 1 + (vec_len bytes - at) < 2 ^ 32 },
    ghost below: { processor pending.event < procs },
}

impl Listed {
    ghost use Rattle.std.specs.Prelude.{◌≡◌, ◌<◌, ◌≤◌, ◌+◌, false, None, Some, Ok, vec_len};
    ghost use Rattle.cdc_sched.specs.Events.{processor};
    ghost use Rattle.cdc_sched.specs.declared.header.Header.{Header};
    ghost use Rattle.cdc_sched.specs.Headers.{HasHeader};
    ghost use Rattle.cdc_sched.specs.Listing.{schedule_events, schedule_bad, listed_told, listed_procs, listed_last, listed_left, ReadOn};
    ghost use Rattle.cdc_sched.specs.Told.{told_of, is_read_fault, NamesProcessor, Gives, PassedOver};

    /// The events behind a header of a whole schedule file, before any call: `at` is the place that `read_header` gave
    /// for the file, and `procs` the header's number of processors.
    pub fn new(bytes: Vec<u8>, at: u64, procs: u32) -> Listed
        requires size { vec_len bytes ≤ 16777216 }
        requires header { (header : Header) × HasHeader bytes.items header at × (header.procs ≡ procs) }
        ensures told { listed_told result ≡ told_of (schedule_events bytes.items at procs) (schedule_bad bytes.items at procs) }
        ensures procs { listed_procs result ≡ procs }
        ensures last { listed_last result ≡ None }
    {
        let at = at as usize;
        let above = count_lines(&bytes[..at]);
        Listed {
            bytes,
            at,
            above,
            procs,
            pending: Repeated {
                event: Event::Step(0),
                count: 0,
            },
            last: None,
        }
    }

    // The next answer.
    fn advance(&mut self) -> Result<Option<Event>, EventRefusal>
        ensures last { listed_last self.new ≡ listed_last self.old }
        ensures procs { listed_procs self.new ≡ listed_procs self.old }
        ensures below { NamesProcessor (listed_procs self.old) result }
        ensures failed { is_read_fault result ≡ false }
        ensures told { Gives (listed_told self.old) (listed_told self.new) result }
    {
        if self.pending.count > 0 {
            return Ok(Some(self.give()));
        }
        if self.read_on()? {
            Ok(Some(self.give()))
        } else {
            Ok(None)
        }
    }

    // The first of the events that wait.
    fn give(&mut self) -> Event
        requires { 1 ≤ self.old.pending.count }
        ensures last { listed_last self.new ≡ listed_last self.old }
        ensures procs { listed_procs self.new ≡ listed_procs self.old }
        ensures below { processor result < listed_procs self.old }
        ensures told { Gives (listed_told self.old) (listed_told self.new) (Ok (Some result)) }
    {
        self.pending.count -= 1;
        self.pending.event
    }

    // Passes over events that wait, at most this many, and gives their number.
    fn pass_pending(&mut self, most: u64) -> u64
        ensures most { result ≤ most }
        ensures procs { listed_procs self.new ≡ listed_procs self.old }
        ensures left { listed_left self.new + result ≤ listed_left self.old }
        ensures last { listed_last self.new ≡ listed_last self.old }
        ensures told { PassedOver (Some (Ok (Some self.old.pending.event))) (listed_told self.old) (listed_told self.new) result }
    {
        let count = most.min(self.pending.count as u64);
        self.pending.count -= count as u32;
        count
    }

    // Reads the next line that gives events, where none wait. Whether there is one.
    fn read_on(&mut self) -> Result<bool, EventRefusal>
        requires { self.old.pending.count ≡ 0 }
        ensures last { listed_last self.new ≡ listed_last self.old }
        ensures procs { listed_procs self.new ≡ listed_procs self.old }
        ensures read { ReadOn self.old self.new result }
    {
        let read = next_listed(&self.bytes[self.at..], self.above, self.procs);
        match read {
            Ok(Some(line)) => {
                let at = self.bytes.len() - line.after.len();
                let above = line.above;
                self.pending = line.repeated;
                self.at = at;
                self.above = above;
                Ok(true)
            }
            Ok(None) => Ok(false),
            Err(bad) => Err(EventRefusal::BadEvent(bad)),
        }
    }
}

impl Events for Listed {
    ghost use Rattle.std.specs.Prelude.{◌≡◌, ◌≤◌, ◌+◌, false, Some};
    ghost use Rattle.cdc_sched.specs.Listing.{listed_told, listed_procs, listed_last, listed_left};
    ghost use Rattle.cdc_sched.specs.Told.{is_read_fault, NamesProcessor, ComesDown, Gives, HasEventCause, PassedOver};

    ghost procs = { listed_procs };

    ghost faults = { λ _. 0 };

    ghost left = { listed_left };

    ghost failed = { λ _. false };

    ghost last = { listed_last };

    ghost told = { listed_told };

    fn next_event(&mut self) -> Result<Option<Event>, EventRefusal>
        ensures procs { listed_procs self.new ≡ listed_procs self.old }
        ensures below { NamesProcessor (listed_procs self.old) result }
        ensures left { ComesDown (listed_left self.old) (listed_left self.new) result }
        ensures failed { is_read_fault result ≡ false }
        ensures last { listed_last self.new ≡ Some result }
        ensures told { Gives (listed_told self.old) (listed_told self.new) result }
        ensures cause { HasEventCause false 0 0 result }
    {
        let answer = self.advance();
        self.last = Some(answer);
        answer
    }

    fn pass_same(&mut self, most: u64) -> u64
        ensures most { result ≤ most }
        ensures procs { listed_procs self.new ≡ listed_procs self.old }
        ensures left { listed_left self.new + result ≤ listed_left self.old }
        ensures last { listed_last self.new ≡ listed_last self.old }
        ensures told { PassedOver (listed_last self.old) (listed_told self.old) (listed_told self.new) result }
    {
        let last = self.last;
        match last {
            Some(Ok(Some(event))) if event == self.pending.event => self.pass_pending(most),
            _ => 0,
        }
    }
}
