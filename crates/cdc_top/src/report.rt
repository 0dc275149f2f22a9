// The lines that `run` and `seq` print behind the program's output.
ghost use Rattle.std.specs.Prelude.{◌≡◌, ◌≢◌, [], ◌∷◌, ◌++◌, if◌then◌else◌};
ghost use Rattle.cdc_text.specs.Pieces.{Wrote};
ghost use Rattle.cdc_epoch.specs.Ties.{counts_of};
ghost use Rattle.cdc_epoch.specs.declared.outcome.Outcome.TheVariants.{ReadFault, SinkFault as SinkFailed};
ghost use Rattle.cdc_report.specs.End.{HasEnded, end_line};
ghost use Rattle.cdc_top.specs.Status.{IsFinished};
ghost use Rattle.cdc_top.specs.Report.{bad_event_line, report, status_of};

use crate::status::{DONE, FAULTED, INPUT_REFUSED, READ_FAULT, STOPPED, WRITE_FAULT};
use cdc_base::{Sink, SinkFault};
use cdc_epoch::{Engine, Outcome};
use cdc_fabric::Fabric;
use cdc_replay::Played;
use cdc_report::{write_end, write_end_line};
use cdc_text::{Text, write_texts, write_words};

// The line end that an output may lack.
fn close_line<K: Sink>(out: &mut K, is_open: bool) -> Result<(), SinkFault>
    ensures { Wrote (if is_open then 10 ∷ [] else []) result (K.taken out.old) (K.taken out.new) (K.faults out.old) (K.faults out.new) }
{
    if is_open {
        return write_words(out, b"\n");
    }
    Ok(())
}

/// Writes the line end that the output may lack, and then how it ended.
pub fn write_closing<K: Sink>(out: &mut K, is_open: bool, end: Outcome) -> Result<(), SinkFault>
    requires { HasEnded end }
    ensures { Wrote ((if is_open then 10 ∷ [] else []) ++ end_line end) result (K.taken out.old) (K.taken out.new) (K.faults out.old) (K.faults out.new) }
{
    close_line(out, is_open)?;
    write_end_line(end, out)
}

fn write_bad_event<K: Sink>(out: &mut K, line: u32) -> Result<(), SinkFault>
    ensures { Wrote (bad_event_line line) result (K.taken out.old) (K.taken out.new) (K.faults out.old) (K.faults out.new) }
{
    write_texts(
        out,
        &[
            Text::Words(b"= bad event line "),
            Text::Number(line as u64),
            Text::Words(b"\n"),
        ],
    )
}

// The lines on a run, or on the event that is none.
fn write_lines<F: Fabric, K: Sink>(
    out: &mut K,
    machine: &Engine<F>,
    procs: u32,
    played: Played,
    bound: u64,
) -> Result<(), SinkFault>
    requires procs { procs ≡ F.procs machine.now.side }
    requires read { played.end ≢ ReadFault }
    requires written { played.end ≢ SinkFailed }
    ensures { Wrote (report played.end machine.now.boundaries played.tally bound (counts_of F.Fabric machine.now) procs) result
        (K.taken out.old) (K.taken out.new) (K.faults out.old) (K.faults out.new) }
{
    match played.end {
        Outcome::BadEvent(line) => write_bad_event(out, line),
        _ => write_end(machine, procs, played.end, played.tally, bound, out),
    }
}

/// Writes the line end that the output may lack, and then the lines on the run: how it ended and what was counted, of
/// each processor too, or which line of the schedule is no event. `bound` is the number of events that might be applied.
pub fn write_report<F: Fabric, K: Sink>(
    out: &mut K,
    machine: &Engine<F>,
    procs: u32,
    played: Played,
    bound: u64,
) -> Result<(), SinkFault>
    requires procs { procs ≡ F.procs machine.now.side }
    requires read { played.end ≢ ReadFault }
    requires written { played.end ≢ SinkFailed }
    ensures { Wrote ((if played.is_open then 10 ∷ [] else []) ++ report played.end machine.now.boundaries played.tally bound (counts_of F.Fabric machine.now) procs) result
        (K.taken out.old) (K.taken out.new) (K.faults out.old) (K.faults out.new) }
{
    close_line(out, played.is_open)?;
    write_lines(out, machine, procs, played, bound)
}

/// The status that a run ends with.
pub fn status(end: Outcome) -> u8
    ensures value { result ≡ status_of end }
    ensures finished { end ≢ ReadFault → end ≢ SinkFailed → IsFinished result }
    ensures ended { HasEnded end → IsFinished result }
{
    match end {
        Outcome::Done => DONE,
        Outcome::Fault(_, _) => FAULTED,
        Outcome::Stopped => STOPPED,
        Outcome::BadEvent(_) => INPUT_REFUSED,
        Outcome::ReadFault => READ_FAULT,
        Outcome::SinkFault => WRITE_FAULT,
    }
}
