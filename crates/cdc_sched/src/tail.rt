//! The events that follow the listed ones.

ghost use Rattle.std.specs.Prelude.{◌≡◌, ◌<◌, ◌≤◌, ◌+◌, ◌%◌, ℕ};
ghost use Rattle.cdc_sched.specs.Events.{processor};
ghost use Rattle.cdc_sched.specs.Tail.{next_random, random_event};

use crate::event::Event;
use crate::header::TailKind;

/// The events that follow the listed ones, as far as they were not given yet.
#[derive(Debug, Drop)]
pub struct Tail {
    kind: TailKind,
    // The processor whose turn it is.
    turn: u32,
    // The generator's number.
    number: u64,
    procs: u32,
    lines: u64,
    ghost in_turn: { turn < procs },
    ghost some_lines: { 0 < lines },
}

impl Tail {
    ghost use Rattle.std.specs.Prelude.{◌≡◌, ◌<◌, ◌≤◌, ◌+◌, ℕ, IfSome};
    ghost use Rattle.cdc_sched.specs.declared.header.TailKind.{TailKind as Kind};
    ghost use Rattle.cdc_sched.specs.Events.{processor};
    ghost use Rattle.cdc_sched.specs.Tail.{tail_event};
    ghost use Rattle.cdc_sched.specs.Tails.{Stands, tail_procs};

    /// The tail of a header for this number of processors and of lines of memory, before its first event.
    pub fn new(kind: TailKind, procs: u32, lines: u64) -> Tail
        requires procs { 1 ≤ procs }
        requires lines { 1 ≤ lines }
        ensures { Stands kind procs lines 0 result }
    {
        let number = match kind {
            TailKind::Random(seed) => seed,
            _ => 0,
        };
        Tail {
            kind,
            turn: 0,
            number,
            procs,
            lines,
        }
    }

    /// The next event; none exactly where the header has no tail.
    pub fn next(&mut self) -> Option<Event>
        ensures event { (kind : Kind) (procs lines k : ℕ) → Stands kind procs lines k self.old → result ≡ tail_event kind procs lines k }
        ensures stands { (kind : Kind) (procs lines k : ℕ) → Stands kind procs lines k self.old → Stands kind procs lines (k + 1) self.new }
        ensures below { IfSome result (λ event. processor event < tail_procs self.old) }
        ensures procs { tail_procs self.new ≡ tail_procs self.old }
    {
        match self.kind {
            TailKind::None => None,
            TailKind::RoundRobin => {
                let processor = self.turn;
                self.turn = turn_after(processor, self.procs);
                Some(Event::Next(processor))
            }
            TailKind::Random(_) => {
                self.number = next_random(self.number);
                Some(random_event(self.number, self.procs, self.lines))
            }
        }
    }
}

// The processor whose turn comes after this one's.
fn turn_after(processor: u32, procs: u32) -> u32
    requires { processor < procs }
    ensures within { result < procs }
    ensures turn { (k : ℕ) → processor ≡ k % procs → result ≡ (k + 1) % procs }
{
    let next = processor + 1;
    if next == procs { 0 } else { next }
}

// The number that the generator makes of the one before.
fn next_random(number: u64) -> u64
    ensures { result ≡ next_random number }
{
    number
        .wrapping_mul(6_364_136_223_846_793_005)
        .wrapping_add(1_442_695_040_888_963_407)
}

// The event of a number of the generator.
fn random_event(number: u64, procs: u32, lines: u64) -> Event
    requires procs { 0 < procs }
    requires lines { 0 < lines }
    ensures event { result ≡ random_event procs lines number }
    ensures below { processor result < procs }
{
    let processor = ((number >> 33) % procs as u64) as u32;
    if number >> 60 == 0 {
        Event::Evict(processor, (number >> 20) % lines)
    } else {
        Event::Next(processor)
    }
}
