//! A run of a program on a memory side.

ghost use Rattle.std.specs.Prelude.{◌≡◌, ℕ, ◌<◌, [], None, true};
ghost use Rattle.cdc_fabric.specs.Counting.{no_counts};

use cdc_base::{MemSink, NoMemory};
use cdc_compile::compile;
use cdc_epoch::Engine;
use cdc_fabric::Fabric;
use cdc_input::records;
use cdc_replay::{Played, replay};
use cdc_sched::{Listed, Tail, read_header};
use std::alloc::Global;
use std::process::Abort;

/// A memory side at its start, which has so many words and processors.
#[derive(Drop)]
pub(crate) struct Memory<F: Fabric> {
    pub(crate) side: F,
    pub(crate) words: u32,
    pub(crate) procs: u32,
}

/// Runs a source without input on a memory side, as a schedule says.
pub(crate) fn run_on<F: Fabric>(
    rt: &impl Abort,
    alloc: Global,
    source: &str,
    schedule: Vec<u8>,
    memory: Memory<F>,
    out: &mut MemSink,
) -> Result<Played, NoMemory>
    requires words { F.words memory.side ≡ memory.words }
    requires procs { F.procs memory.side ≡ memory.procs }
    requires start { F.stands memory.side [] }
    requires none { (p : ℕ) → p < memory.procs → F.counts memory.side p ≡ no_counts }
    requires plain { F.plain memory.side ≡ true }
    requires made { F.made memory.side ≡ None }
{
    let Ok(compiled) = compile(alloc, source.as_bytes()) else {
        panic!(rt; "a source that is refused");
    };
    let Ok(records) = records(alloc, b"") else {
        panic!(rt; "an input that is refused");
    };
    assert!(rt; schedule.len() <= 16777216);
    let Ok((header, at)) = read_header(&schedule) else {
        panic!(rt; "a header that is refused");
    };
    assert!(rt;
        compiled.code.words == memory.words && header.procs == memory.procs && header.procs > 0
    );
    let mut events = Listed::new(schedule, at, header.procs);
    let mut engine = Engine::around(alloc, compiled.code, records, memory.side, header.procs)?;
    let mut tail = Tail::new(header.tail, header.procs, engine.lines());
    Ok(replay(&mut engine, &mut events, &mut tail, header.bound, out))
}
