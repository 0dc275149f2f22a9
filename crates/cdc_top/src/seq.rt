// The command `seq`: a program is carried out on one memory.
ghost use Rattle.std.specs.Prelude.{◌≡◌, ◌≢◌, ◌∷◌, ◌++◌, ◌≤◌, [], Ok, length, if◌then◌else◌};
ghost use Rattle.cdc_base.specs.Causes.{Rose};
ghost use Rattle.cdc_compile.specs.Source.{IsProgramOf};
ghost use Rattle.cdc_prog.specs.Meaning.{meaning};
ghost use Rattle.cdc_prog.specs.Plain as plain;
ghost use Rattle.cdc_prog.specs.Resolved.{IsResolved, HasNoCall};
ghost use Rattle.cdc_prog.specs.Translation.{program_of};
ghost use Rattle.cdc_top.specs.Answer.{Seq, SeqAnswers, IsTold, StepEnded, ToolEnded, Said, SaidOneOf};
ghost use Rattle.cdc_report.specs.End.{HasEnded, end_line};
ghost use Rattle.cdc_top.specs.Report.{answer, status_of};
ghost use Rattle.cdc_top.specs.Sequential.{InputIs, IsCarriedOut, carried_out};

use crate::check::say_refused;
use crate::input::{say_bad_input, say_long_input};
use crate::limits::INPUT_LIMIT;
use crate::report::{status, write_closing};
use crate::status::{OUT_OF_MEMORY, READ_FAULT, WRITE_FAULT};
use cdc_base::{ReadRefusal, Sink, Store, read_all};
use cdc_check::CheckRefusal;
use cdc_compile::{Refusal, program};
use cdc_epoch::Outcome;
use cdc_input::{InputRecords, InputRefusal, records};
use cdc_meaning::{Plain, run_lines};
use cdc_prog::{Kind, Program, limit};
use std::alloc::Global;

// Writes the line end that an output may lack, and how the program ended.
fn close<K: Sink>(is_open: bool, end: Outcome, out: &mut K) -> u8
    requires { HasEnded end }
    ensures written { result ≢ OUT_OF_MEMORY }
    ensures said { Said (answer ((if is_open then 10 ∷ [] else []) ++ end_line end) (status_of end)) result (K.taken out.old) (K.taken out.new) (K.faults out.old) (K.faults out.new) }
{
    match write_closing(out, is_open, end) {
        Ok(()) => status(end),
        Err(_) => WRITE_FAULT,
    }
}

// Carries out a program on its records, and writes what it prints and how it ended.
fn play<K: Sink>(alloc: Global, program: &Program, records: &InputRecords, out: &mut K) -> u8
    requires resolved { IsResolved (program_of program.now) }
    requires calls { HasNoCall (program_of program.now) }
    ensures { SaidOneOf (λ a. a ≡ carried_out (meaning (program_of program.now) records.now.records)) result (K.taken out.old) (K.taken out.new) (K.faults out.old) (K.faults out.new) }
{
    let ran = run_lines(alloc, program, records, out);
    match ran.answer {
        Plain::Done => close(ran.is_open, Outcome::Done, out),
        Plain::Fault(kind, line) => close(ran.is_open, Outcome::Fault(kind, line), out),
        Plain::SinkFault => WRITE_FAULT,
        Plain::Memory => OUT_OF_MEMORY,
    }
}

// Carries out a program on the bytes of its input.
fn play_input<K: Sink>(alloc: Global, program: &Program, input: &[u8], out: &mut K) -> u8
    requires resolved { IsResolved (program_of program.now) }
    requires calls { HasNoCall (program_of program.now) }
    requires within { length input.now ≤ INPUT_LIMIT }
    ensures { SaidOneOf (InputIs (IsCarriedOut (meaning (program_of program.now))) input.now) result (K.taken out.old) (K.taken out.new) (K.faults out.old) (K.faults out.new) }
{
    match records(alloc, input) {
        Ok(records) => play(alloc, program, &records, out),
        Err(InputRefusal::BadNumber(place)) => say_bad_input(place, out),
        Err(InputRefusal::Memory) => OUT_OF_MEMORY,
    }
}

// Reads the input, and carries out the program on it.
fn seq_program<S: Store, K: Sink>(
    alloc: Global,
    program: &Program,
    input: &str,
    store: &mut S,
    out: &mut K,
) -> u8
    requires resolved { IsResolved (program_of program.now) }
    requires calls { HasNoCall (program_of program.now) }
    ensures { StepEnded (λ files. IsTold (S.told store.old input.now) files.input) (λ files a. InputIs (IsCarriedOut (meaning (program_of program.now))) files.input a)
        (λ files. Rose (S.faults store.old input.now) (S.faults store.new input.now)) result
        (K.taken out.old) (K.taken out.new) (S.faults store.old) (S.faults store.new) (K.faults out.old) (K.faults out.new) }
{
    match read_all(alloc, store, input, INPUT_LIMIT) {
        Err(ReadRefusal::Memory) => OUT_OF_MEMORY,
        Err(ReadRefusal::Failed) => READ_FAULT,
        Err(ReadRefusal::TooLong) => say_long_input(out),
        Ok(bytes) => play_input(alloc, program, &bytes, out),
    }
}

// Goes on with the input where the source is accepted.
fn seq_source<S: Store, K: Sink>(
    alloc: Global,
    source: &[u8],
    input: &str,
    store: &mut S,
    out: &mut K,
) -> u8
    ensures { StepEnded (λ files. IsTold (S.told store.old input.now) files.input) (λ files a. SeqAnswers source.now files.input a)
        (λ files. (accepted : plain.Program) × IsProgramOf source.now (Ok accepted) × Rose (S.faults store.old input.now) (S.faults store.new input.now)) result
        (K.taken out.old) (K.taken out.new) (S.faults store.old) (S.faults store.new) (K.faults out.old) (K.faults out.new) }
{
    match program(alloc, source) {
        Ok(program) => seq_program(alloc, &program, input, store, out),
        Err(Refusal::Memory) => OUT_OF_MEMORY,
        Err(refusal) => say_refused(refusal, out),
    }
}

/// Reads a program and its input, carries the program out on one memory, and writes what it prints and how it ended. All
/// memory is taken before the first byte is written.
pub fn seq_files<S: Store, K: Sink>(
    alloc: Global,
    program: &str,
    input: &str,
    store: &mut S,
    out: &mut K,
) -> u8
    ensures { ToolEnded (Seq program.now input.now) (S.told store.old) result
        (K.taken out.old) (K.taken out.new) (S.faults store.old) (S.faults store.new) (K.faults out.old) (K.faults out.new) }
{
    match read_all(alloc, store, program, limit(Kind::Source)) {
        Err(ReadRefusal::Memory) => OUT_OF_MEMORY,
        Err(ReadRefusal::Failed) => READ_FAULT,
        Err(ReadRefusal::TooLong) => {
            say_refused(Refusal::Check(CheckRefusal::TooMany(Kind::Source)), out)
        }
        Ok(bytes) => seq_source(alloc, &bytes, input, store, out),
    }
}
