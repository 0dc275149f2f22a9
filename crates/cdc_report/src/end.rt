// The lines on a run.
ghost use Rattle.std.specs.Prelude.{◌≡◌, ◌++◌};
ghost use Rattle.cdc_text.specs.Pieces.{Wrote};
ghost use Rattle.cdc_epoch.specs.Ties.{counts_of};
ghost use Rattle.cdc_report.specs.End.{HasEnded, kind_text, end_line, event_lines, count_line, count_lines, run_text};

use cdc_base::{Sink, SinkFault};
use cdc_epoch::{Counts, Engine, Outcome, Tally};
use cdc_fabric::Fabric;
use cdc_prog::FaultKind;
use cdc_text::{Text, write_texts, write_words};

fn kind_words(kind: FaultKind) -> &'static [u8]
    ensures { result.now ≡ kind_text kind }
{
    match kind {
        FaultKind::Overflow => b"overflow",
        FaultKind::ZeroDivisor => b"zero divisor",
        FaultKind::Subscript => b"subscript",
        FaultKind::ZeroStep => b"zero step",
        FaultKind::TripTooLarge => b"trip too large",
        FaultKind::InputEnded => b"input ended",
    }
}

fn write_fault<K: Sink>(kind: FaultKind, line: u32, out: &mut K) -> Result<(), SinkFault>
    ensures { Wrote (end_line (Outcome.Fault kind line)) result (K.taken out.old) (K.taken out.new) (K.faults out.old) (K.faults out.new) }
{
    write_texts(
        out,
        &[
            Text::Words(b"= end fault "),
            Text::Words(kind_words(kind)),
            Text::Words(b" at line "),
            Text::Number(line as u64),
            Text::Words(b"\n"),
        ],
    )
}

/// Writes the line that tells how a run or a program ended by itself, or that it was stopped (docs/FORMATS.md).
///
/// # Errors
///
/// The sink failed when it had taken a front of the line.
pub fn write_end_line<K: Sink>(end: Outcome, out: &mut K) -> Result<(), SinkFault>
    requires { HasEnded end }
    ensures { Wrote (end_line end) result (K.taken out.old) (K.taken out.new) (K.faults out.old) (K.faults out.new) }
{
    match end {
        Outcome::Done => write_words(out, b"= end done\n"),
        Outcome::Fault(kind, line) => write_fault(kind, line, out),
        Outcome::Stopped => write_words(out, b"= end stopped\n"),
        Outcome::BadEvent(_) | Outcome::ReadFault | Outcome::SinkFault => unreachable!(),
    }
}

fn write_events<K: Sink>(
    boundaries: u64,
    tally: Tally,
    bound: u64,
    out: &mut K,
) -> Result<(), SinkFault>
    ensures { Wrote (event_lines boundaries tally bound) result (K.taken out.old) (K.taken out.new) (K.faults out.old) (K.faults out.new) }
{
    write_texts(
        out,
        &[
            Text::Words(b"= boundaries "),
            Text::Number(boundaries),
            Text::Words(b"\n= events "),
            Text::Number(tally.events),
            Text::Words(b" of "),
            Text::Number(bound),
            Text::Words(b"\n= idle "),
            Text::Number(tally.idle),
            Text::Words(b"\n"),
        ],
    )
}

fn write_count<K: Sink>(p: u32, counts: Counts, out: &mut K) -> Result<(), SinkFault>
    ensures { Wrote (count_line p counts) result (K.taken out.old) (K.taken out.new) (K.faults out.old) (K.faults out.new) }
{
    write_texts(
        out,
        &[
            Text::Words(b"= p"),
            Text::Number(p as u64),
            Text::Words(b" steps "),
            Text::Number(counts.steps),
            Text::Words(b" reads "),
            Text::Number(counts.reads),
            Text::Words(b" ordinary "),
            Text::Number(counts.ordinary),
            Text::Words(b" marked "),
            Text::Number(counts.marked),
            Text::Words(b" misses "),
            Text::Number(counts.misses),
            Text::Words(b" evicted "),
            Text::Number(counts.evicted),
            Text::Words(b" invalidated "),
            Text::Number(counts.invalidated),
            Text::Words(b"\n"),
        ],
    )
}

// A line for each processor.
fn write_counts<F: Fabric, K: Sink>(
    machine: &Engine<F>,
    procs: u32,
    out: &mut K,
) -> Result<(), SinkFault>
    requires { procs ≡ F.procs machine.now.side }
    ensures { Wrote (count_lines (counts_of F.Fabric machine.now) procs) result (K.taken out.old) (K.taken out.new) (K.faults out.old) (K.faults out.new) }
{
    for p in 0..procs {
        write_count(p, machine.counts(p), out)?;
    }
    Ok(())
}

fn write_facts<F: Fabric, K: Sink>(
    machine: &Engine<F>,
    procs: u32,
    tally: Tally,
    bound: u64,
    out: &mut K,
) -> Result<(), SinkFault>
    requires { procs ≡ F.procs machine.now.side }
    ensures { Wrote (event_lines machine.now.boundaries tally bound ++ count_lines (counts_of F.Fabric machine.now) procs) result
        (K.taken out.old) (K.taken out.new) (K.faults out.old) (K.faults out.new) }
{
    write_events(machine.boundaries(), tally, bound, out)?;
    write_counts(machine, procs, out)
}

/// Writes the lines on a run that ended by itself or was stopped (docs/FORMATS.md): how it ended, the boundaries, the events,
/// and what was counted of each processor. `procs` is the machine's number of processors, `bound` the number of events that
/// might be applied.
///
/// # Errors
///
/// The sink failed when it had taken a front of the lines.
pub fn write_end<F: Fabric, K: Sink>(
    machine: &Engine<F>,
    procs: u32,
    end: Outcome,
    tally: Tally,
    bound: u64,
    out: &mut K,
) -> Result<(), SinkFault>
    requires procs { procs ≡ F.procs machine.now.side }
    requires ended { HasEnded end }
    ensures { Wrote (run_text end machine.now.boundaries tally bound (counts_of F.Fabric machine.now) procs) result
        (K.taken out.old) (K.taken out.new) (K.faults out.old) (K.faults out.new) }
{
    write_end_line(end, out)?;
    write_facts(machine, procs, tally, bound, out)
}
