// The run of a program's code by the machine, as its schedule says.
ghost use Rattle.std.specs.Prelude.{◌≡◌, ◌≢◌, ◌≤◌, [], ◌∷◌, ◌++◌, Some, IfOk, if◌then◌else◌};
ghost use Rattle.cdc_epoch.specs.Ties.{counts_of};
ghost use Rattle.cdc_epoch.specs.declared.outcome.Outcome.TheVariants.{ReadFault, SinkFault as SinkFailed};
ghost use Rattle.cdc_fabric.specs.UncachedSteps.{uncached_procs};
ghost use Rattle.cdc_fabric.specs.contracts.uncached.UncachedFabric.TheImpl.{ghosts as memory_side};
ghost use Rattle.cdc_sched.specs.Listing.{listed_told, listed_procs};
ghost use Rattle.cdc_sched.specs.Told.{Told};
ghost use Rattle.cdc_top.specs.Answer.{Said, SaidOneOf};
ghost use Rattle.cdc_top.specs.Loaded.{IsCompiledCode, IsBegun};
ghost use Rattle.cdc_top.specs.Report.{answer, report, status_of};
ghost use Rattle.cdc_top.specs.Run.{played};

use crate::report::{status, write_report};
use crate::status::{OUT_OF_MEMORY, READ_FAULT, WRITE_FAULT};
use cdc_base::{NoMemory, Sink};
use cdc_code::Code;
use cdc_epoch::{Engine, Outcome};
use cdc_fabric::Uncached;
use cdc_input::InputRecords;
use cdc_replay::{Played, replay};
use cdc_sched::{Header, Listed, Tail};
use std::alloc::Global;

/// The code of an accepted program, with its records.
#[derive(Drop)]
pub struct Loaded {
    pub code: Code,
    pub records: InputRecords,
}

// The machine before its first event: so many processors on memory without caches.
fn prepare(alloc: Global, loaded: Loaded, procs: u32) -> Result<Engine<Uncached>, NoMemory>
    requires { IsCompiledCode loaded.code }
    ensures { IfOk result (λ machine. IsBegun loaded.code loaded.records.records procs machine) }
{
    let memory = Uncached::new(alloc, loaded.code.words, procs)?;
    Engine::around(alloc, loaded.code, loaded.records, memory, procs)
}

// Writes what stands behind the output of a run.
fn close<K: Sink>(machine: &Engine<Uncached>, header: Header, played: Played, out: &mut K) -> u8
    requires procs { header.procs ≡ uncached_procs machine.now.side }
    requires read { played.end ≢ ReadFault }
    requires written { played.end ≢ SinkFailed }
    ensures memory { result ≢ OUT_OF_MEMORY }
    ensures said { Said (answer ((if played.is_open then 10 ∷ [] else [])
        ++ report played.end machine.now.boundaries played.tally header.bound (counts_of memory_side machine.now) header.procs) (status_of played.end)) result
        (K.taken out.old) (K.taken out.new) (K.faults out.old) (K.faults out.new) }
{
    match write_report(out, machine, header.procs, played, header.bound) {
        Ok(()) => status(played.end),
        Err(_) => WRITE_FAULT,
    }
}

// Runs the machine over the events of its schedule, and writes what it prints and the lines on the run.
fn play_out<K: Sink>(
    machine: &mut Engine<Uncached>,
    events: &mut Listed,
    header: Header,
    out: &mut K,
) -> u8
    requires begun { IsBegun machine.old.code machine.old.records.records header.procs machine.old }
    requires listed { listed_procs events.old ≡ header.procs }
    requires some { 1 ≤ header.procs }
    ensures { (t : Told) → listed_told events.old ≡ Some t → SaidOneOf (λ a. a ≡ played machine.old.code machine.old.records.records t header) result
        (K.taken out.old) (K.taken out.new) (K.faults out.old) (K.faults out.new) }
{
    let mut tail = Tail::new(header.tail, header.procs, machine.lines());
    let played = replay(machine, events, &mut tail, header.bound, out);
    match played.end {
        Outcome::ReadFault => READ_FAULT,
        Outcome::SinkFault => WRITE_FAULT,
        _ => close(machine, header, played, out),
    }
}

/// Runs an accepted program over the events of its schedule, and writes what it prints and the lines on the run. All memory is
/// taken before the first byte is written.
pub fn run_events<K: Sink>(
    alloc: Global,
    loaded: Loaded,
    header: Header,
    events: Listed,
    out: &mut K,
) -> u8
    requires compiled { IsCompiledCode loaded.code }
    requires listed { listed_procs events ≡ header.procs }
    requires some { 1 ≤ header.procs }
    ensures { (t : Told) → listed_told events ≡ Some t → SaidOneOf (λ a. a ≡ played loaded.code loaded.records.records t header) result
        (K.taken out.old) (K.taken out.new) (K.faults out.old) (K.faults out.new) }
{
    let mut events = events;
    match prepare(alloc, loaded, header.procs) {
        Ok(mut machine) => play_out(&mut machine, &mut events, header, out),
        Err(NoMemory) => OUT_OF_MEMORY,
    }
}
