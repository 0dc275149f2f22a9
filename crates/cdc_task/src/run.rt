//! A program carried out on one memory.

ghost use Rattle.std.specs.Prelude.{◌≡◌, [], true, false, length, suc, ◌<◌, pos, ◌+ℤ◌, ◌*ℤ◌, IsTrue, OnOk, replicate};
ghost use Rattle.cdc_prog.specs.Value.{is_value};
ghost use Rattle.cdc_prog.specs.Alone.{left};
ghost use Rattle.cdc_task.specs.Course.{Serial, Ends, ends_prop};
ghost use Rattle.cdc_task.specs.Held.{frame_of};
ghost use Rattle.cdc_prog.specs.Trips.{HasIndexes};
ghost use Rattle.cdc_task.specs.Memory.{memory_of};
ghost use Rattle.cdc_prog.specs.Meaning.{bytes_of_piece};
ghost use Rattle.cdc_prog.specs.Pieces.{IsThere};
ghost use Rattle.cdc_prog.specs.Answers.{HasPlainCause};
ghost use Rattle.cdc_code.specs.Sound.{IsSound};
ghost use Rattle.cdc_task.specs.Answers.{IsRunOf};
ghost use Rattle.cdc_task.specs.Laws.{HasArrays};
ghost use Rattle.cdc_prog.specs.Output.{output_of};
ghost use Rattle.cdc_task.specs.Running.{Doing, Forking, before, beyond, EndsWithin, IsNearer, Says, state_of, RunsTurn, RunsTurns, RunsSerial};

use crate::end::StepEnd;
use crate::task::Task;
use crate::words::Words;
use cdc_base::{Gathered, List, Sink};
use cdc_code::Code;
use cdc_input::InputRecords;
use cdc_prog::{Fault, Piece, Plain, Stop, answer, hand_on, index_of, put_piece};
use std::alloc::Global;

// Code, and records on which its run on one memory ends.
#[derive(Drop)]
struct Whole<'a> {
    code: &'a Code,
    records: &'a InputRecords,
    ghost ends: { Ends code.now records.now.records } by { ends_prop code.now records.now.records },
}

// What the tasks of a run share.
#[derive(Drop)]
struct Shared {
    words: Words,
    gathered: Gathered,
}

// The iterations of a DOALL: how many, the index of the first, and the step.
#[derive(Clone, Copy)]
struct Fork {
    count: u32,
    from: i64,
    by: i64,
}

// Whether a piece has bytes: a text has, where it is there.
fn is_there(texts: &[List<u8>], piece: Piece) -> bool
    ensures there { result ≡ true → IsThere (length texts.now) piece }
    ensures gone { result ≡ false → bytes_of_piece texts.now piece ≡ [] }
{
    match piece {
        Piece::Text(number) => (number as usize) < texts.len(),
        _ => true,
    }
}

// Prints a piece. A text that is not there has no bytes.
fn say<K: Sink>(
    out: &mut K,
    gathered: &mut Gathered,
    texts: &[List<u8>],
    piece: Piece,
) -> Result<(), Stop>
    ensures { Says texts.now piece (output_of (K.taken out.old) gathered.old (K.faults out.old)) result (output_of (K.taken out.new) gathered.new (K.faults out.new)) }
{
    if !is_there(texts, piece) {
        return Ok(());
    }
    put_piece(out, gathered, texts, piece)?;
    Ok(())
}

// An iteration from its beginning to its end.
fn run_turn<K: Sink>(
    whole: &Whole,
    serial: &Task,
    fork: Fork,
    k: u32,
    lane: &mut Task,
    shared: &mut Shared,
    out: &mut K,
) -> Result<(), Stop>
    requires words { length shared.old.words.cells.items ≡ whole.now.code.now.words }
    requires there { k < fork.count }
    requires index { IsTrue (is_value (fork.from +ℤ (pos k *ℤ fork.by))) }
    requires forking { Forking whole.now.code.now whole.now.records.now.records serial.now fork.from fork.by }
    requires ends { EndsWithin whole.now.code.now whole.now.ends.0 (before whole.now.records.now.records serial.now fork k, memory_of shared.old.words) }
    ensures turn { RunsTurn whole.now.code.now whole.now.records.now.records serial.now fork k (state_of (K.taken out.old) shared.old (K.faults out.old)) result (state_of (K.taken out.new) shared.new (K.faults out.new)) }
    ensures memory { (d : Forking whole.now.code.now whole.now.records.now.records serial.now fork.from fork.by) → OnOk result (memory_of shared.new.words ≡ left (d.body k) (memory_of shared.old.words)) }
    ensures nearer { OnOk result (IsNearer whole.now.code.now (before whole.now.records.now.records serial.now fork k, memory_of shared.old.words) (before whole.now.records.now.records serial.now fork (suc k), memory_of shared.new.words)) }
    ensures words { length shared.new.words.cells.items ≡ length shared.old.words.cells.items }
{
    lane.iteration(serial, index_of(fork.from, fork.by, k));
    let texts = whole.code.texts.as_slice();
    loop {
        match lane.step(whole.code, whole.records, &mut shared.words) {
            StepEnd::Went => {}
            StepEnd::Printed(piece) => say(out, &mut shared.gathered, texts, piece)?,
            StepEnd::Faulted(kind, line) => return Err(Stop::Faulted(Fault { kind, line })),
            StepEnd::Forked { .. } | StepEnd::Joined | StepEnd::Halted => return Ok(()),
        }
    }
}

// The iterations of a fork in order, up to the first fault.
fn run_turns<K: Sink>(
    whole: &Whole,
    serial: &Task,
    fork: Fork,
    lane: &mut Task,
    shared: &mut Shared,
    out: &mut K,
) -> Result<(), Stop>
    requires words { length shared.old.words.cells.items ≡ whole.now.code.now.words }
    requires indexes { HasIndexes fork.count fork.from fork.by }
    requires forking { Forking whole.now.code.now whole.now.records.now.records serial.now fork.from fork.by }
    requires ends { EndsWithin whole.now.code.now whole.now.ends.0 (before whole.now.records.now.records serial.now fork 0, memory_of shared.old.words) }
    ensures turns { RunsTurns whole.now.code.now whole.now.records.now.records serial.now fork (state_of (K.taken out.old) shared.old (K.faults out.old)) result (state_of (K.taken out.new) shared.new (K.faults out.new)) }
    ensures nearer { OnOk result (IsNearer whole.now.code.now (before whole.now.records.now.records serial.now fork 0, memory_of shared.old.words) (beyond whole.now.records.now.records serial.now, memory_of shared.new.words)) }
    ensures words { length shared.new.words.cells.items ≡ length shared.old.words.cells.items }
{
    for k in 0..fork.count {
        run_turn(whole, serial, fork, k, lane, shared, out)?;
    }
    Ok(())
}

// A serial task to its end.
fn run_serial<K: Sink>(
    whole: &Whole,
    serial: &mut Task,
    lane: &mut Task,
    shared: &mut Shared,
    out: &mut K,
) -> Result<(), Stop>
    requires words { length shared.old.words.cells.items ≡ whole.now.code.now.words }
    requires doing { Doing whole.now.code.now whole.now.records.now.records serial.old }
    requires ends { EndsWithin whole.now.code.now whole.now.ends.0 (Serial (frame_of [] whole.now.records.now.records serial.old), memory_of shared.old.words) }
    ensures { RunsSerial whole.now.code.now whole.now.records.now.records serial.old (state_of (K.taken out.old) shared.old (K.faults out.old)) result (state_of (K.taken out.new) shared.new (K.faults out.new)) }
{
    let texts = whole.code.texts.as_slice();
    loop {
        match serial.step(whole.code, whole.records, &mut shared.words) {
            StepEnd::Went => {}
            StepEnd::Printed(piece) => say(out, &mut shared.gathered, texts, piece)?,
            StepEnd::Forked {
                number: _,
                count,
                from,
                by,
            } => {
                run_turns(whole, serial, Fork { count, from, by }, lane, shared, out)?;
                serial.resume();
            }
            StepEnd::Faulted(kind, line) => return Err(Stop::Faulted(Fault { kind, line })),
            StepEnd::Joined | StepEnd::Halted => return Ok(()),
        }
    }
}

// Carries out code on words of 0.
fn run_on<K: Sink>(code: &Code, records: &InputRecords, cells: Vec<i64>, out: &mut K) -> Plain
    requires sound { IsSound code.now }
    requires arrays { HasArrays code.now }
    requires zeros { cells.items ≡ replicate code.now.words (pos 0) }
    ensures run { IsRunOf code.now records.now.records (K.taken out.old) (K.taken out.new) result }
    ensures cause { HasPlainCause (K.faults out.old) (K.faults out.new) result }
{
    let whole = Whole { code, records };
    let mut shared = Shared {
        words: Words { cells },
        gathered: Gathered::new(),
    };
    let mut serial = Task::serial(code);
    let mut lane = Task::serial(code);
    let end = run_serial(&whole, &mut serial, &mut lane, &mut shared, out);
    answer(hand_on(end, &mut shared.gathered, out))
}

/// Carries out sound code on one memory, and writes its output as it comes: each instruction as a task
/// does, and the iterations of a fork one after another. All memory is taken before the first byte is
/// written.
pub fn run_alone<K: Sink>(alloc: Global, code: &Code, records: &InputRecords, out: &mut K) -> Plain
    requires sound { IsSound code.now }
    requires arrays { HasArrays code.now }
    ensures run { IsRunOf code.now records.now.records (K.taken out.old) (K.taken out.new) result }
    ensures cause { HasPlainCause (K.faults out.old) (K.faults out.new) result }
{
    match vec![in alloc; 0; code.words as usize] {
        Ok(cells) => run_on(code, records, cells, out),
        Err(_) => Plain::Memory,
    }
}
