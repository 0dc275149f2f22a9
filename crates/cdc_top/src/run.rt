// The command `run`: a program is carried out by the machine, as its schedule says.
ghost use Rattle.std.specs.Prelude.{◌≡◌, ◌≤◌, length, vec_len, Ok as Accepts};
ghost use Rattle.cdc_base.specs.Causes.{Rose};
ghost use Rattle.cdc_compile.specs.Source.{IsProgramOf};
ghost use Rattle.cdc_prog.specs.Plain as plain;
ghost use Rattle.cdc_sched.specs.Headers.{bad_number};
ghost use Rattle.cdc_top.specs.Answer.{Run, RunAnswers, ScheduleAnswers, InputFailed, IsTold, StepEnded, ToolEnded, Said, SaidOneOf};
ghost use Rattle.cdc_top.specs.Loaded.{IsCompiledCode};
ghost use Rattle.cdc_top.specs.Report.{answer};
ghost use Rattle.cdc_top.specs.Schedule.{header_refused};
ghost use Rattle.cdc_top.specs.Sequential.{InputIs, IsGoodInput};
ghost use Rattle.cdc_top.specs.Status.{IsFinished};

use crate::check::say_refused;
use crate::input::{say_bad_input, say_long_input};
use crate::limits::{INPUT_LIMIT, SCHEDULE_LIMIT};
use crate::play::{Loaded, run_events};
use crate::status::{INPUT_REFUSED, OUT_OF_MEMORY, READ_FAULT, WRITE_FAULT};
use cdc_base::{ReadRefusal, Sink, Store, read_all};
use cdc_check::CheckRefusal;
use cdc_compile::{Compiled, Refusal, compile};
use cdc_input::{InputRecords, InputRefusal, records};
use cdc_prog::{Kind, limit};
use cdc_sched::{HeaderRefusal, Listed, read_header};
use cdc_text::{Text, write_texts, write_words};
use std::alloc::Global;

/// Writes a text, and ends with this status.
pub fn say<K: Sink>(out: &mut K, text: &[u8], status: u8) -> u8
    requires { IsFinished status }
    ensures { Said (answer text.now status) result (K.taken out.old) (K.taken out.new) (K.faults out.old) (K.faults out.new) }
{
    match write_words(out, text) {
        Ok(()) => status,
        Err(_) => WRITE_FAULT,
    }
}

// Tells which line of a schedule does not fit its place in the header.
fn say_bad_header<K: Sink>(refusal: HeaderRefusal, out: &mut K) -> u8
    ensures { Said (header_refused (bad_number refusal)) result (K.taken out.old) (K.taken out.new) (K.faults out.old) (K.faults out.new) }
{
    let HeaderRefusal::BadHeader(line) = refusal;
    let texts = [
        Text::Words(b"refused header line "),
        Text::Number(line as u64),
        Text::Words(b"\n"),
    ];
    match write_texts(out, &texts) {
        Ok(()) => INPUT_REFUSED,
        Err(_) => WRITE_FAULT,
    }
}

// Runs the program as the bytes of its schedule say.
fn run_bytes<K: Sink>(
    alloc: Global,
    compiled: Compiled,
    records: InputRecords,
    schedule: Vec<u8>,
    out: &mut K,
) -> u8
    requires compiled { IsCompiledCode compiled.code }
    requires within { vec_len schedule ≤ SCHEDULE_LIMIT }
    ensures { SaidOneOf (ScheduleAnswers compiled.code schedule.items records.records) result (K.taken out.old) (K.taken out.new) (K.faults out.old) (K.faults out.new) }
{
    match read_header(&schedule) {
        Err(refusal) => say_bad_header(refusal, out),
        Ok((header, at)) => {
            let events = Listed::new(schedule, at, header.procs);
            let loaded = Loaded {
                code: compiled.code,
                records,
            };
            run_events(alloc, loaded, header, events, out)
        }
    }
}

// Reads the schedule and runs the program.
fn run_schedule<S: Store, K: Sink>(
    alloc: Global,
    compiled: Compiled,
    records: InputRecords,
    schedule: &str,
    store: &mut S,
    out: &mut K,
) -> u8
    requires compiled { IsCompiledCode compiled.code }
    ensures { StepEnded (λ files. IsTold (S.told store.old schedule.now) files.schedule) (λ files a. ScheduleAnswers compiled.code files.schedule records.records a)
        (λ files. Rose (S.faults store.old schedule.now) (S.faults store.new schedule.now)) result
        (K.taken out.old) (K.taken out.new) (S.faults store.old) (S.faults store.new) (K.faults out.old) (K.faults out.new) }
{
    match read_all(alloc, store, schedule, SCHEDULE_LIMIT) {
        Err(ReadRefusal::Memory) => OUT_OF_MEMORY,
        Err(ReadRefusal::Failed) => READ_FAULT,
        Err(ReadRefusal::TooLong) => say(
            out,
            b"refused schedule over 16777216 bytes\n",
            INPUT_REFUSED,
        ),
        Ok(bytes) => run_bytes(alloc, compiled, records, bytes, out),
    }
}

// Goes on with the schedule where the bytes of the input are good.
fn run_input<S: Store, K: Sink>(
    alloc: Global,
    compiled: Compiled,
    input: &[u8],
    schedule: &str,
    store: &mut S,
    out: &mut K,
) -> u8
    requires compiled { IsCompiledCode compiled.code }
    requires within { length input.now ≤ INPUT_LIMIT }
    ensures { StepEnded (λ files. IsTold (S.told store.old schedule.now) files.schedule) (λ files a. InputIs (ScheduleAnswers compiled.code files.schedule) input.now a)
        (λ files. IsGoodInput input.now × Rose (S.faults store.old schedule.now) (S.faults store.new schedule.now)) result
        (K.taken out.old) (K.taken out.new) (S.faults store.old) (S.faults store.new) (K.faults out.old) (K.faults out.new) }
{
    match records(alloc, input) {
        Ok(records) => run_schedule(alloc, compiled, records, schedule, store, out),
        Err(InputRefusal::BadNumber(place)) => say_bad_input(place, out),
        Err(InputRefusal::Memory) => OUT_OF_MEMORY,
    }
}

// Reads the input, and goes on with it.
fn run_compiled<S: Store, K: Sink>(
    alloc: Global,
    compiled: Compiled,
    input: &str,
    schedule: &str,
    store: &mut S,
    out: &mut K,
) -> u8
    requires compiled { IsCompiledCode compiled.code }
    ensures { StepEnded (λ files. IsTold (S.told store.old input.now) files.input × IsTold (S.told store.old schedule.now) files.schedule)
        (λ files a. InputIs (ScheduleAnswers compiled.code files.schedule) files.input a)
        (λ files. InputFailed input.now schedule.now files (S.faults store.old) (S.faults store.new)) result
        (K.taken out.old) (K.taken out.new) (S.faults store.old) (S.faults store.new) (K.faults out.old) (K.faults out.new) }
{
    match read_all(alloc, store, input, INPUT_LIMIT) {
        Err(ReadRefusal::Memory) => OUT_OF_MEMORY,
        Err(ReadRefusal::Failed) => READ_FAULT,
        Err(ReadRefusal::TooLong) => say_long_input(out),
        Ok(bytes) => run_input(alloc, compiled, &bytes, schedule, store, out),
    }
}

// Goes on with the input where the source is accepted.
fn run_source<S: Store, K: Sink>(
    alloc: Global,
    source: &[u8],
    input: &str,
    schedule: &str,
    store: &mut S,
    out: &mut K,
) -> u8
    ensures { StepEnded (λ files. (source.now ≡ files.program) × IsTold (S.told store.old input.now) files.input × IsTold (S.told store.old schedule.now) files.schedule) RunAnswers
        (λ files. (p : plain.Program) × IsProgramOf files.program (Accepts p) × InputFailed input.now schedule.now files (S.faults store.old) (S.faults store.new)) result
        (K.taken out.old) (K.taken out.new) (S.faults store.old) (S.faults store.new) (K.faults out.old) (K.faults out.new) }
{
    match compile(alloc, source) {
        Ok(compiled) => run_compiled(alloc, compiled, input, schedule, store, out),
        Err(Refusal::Memory) => OUT_OF_MEMORY,
        Err(refusal) => say_refused(refusal, out),
    }
}

/// Reads a program, its input and its schedule, runs the program, and writes what it prints and how the run ended. All
/// memory is taken before the first byte is written.
pub fn run_files<S: Store, K: Sink>(
    alloc: Global,
    program: &str,
    input: &str,
    schedule: &str,
    store: &mut S,
    out: &mut K,
) -> u8
    ensures { ToolEnded (Run program.now input.now schedule.now) (S.told store.old) result
        (K.taken out.old) (K.taken out.new) (S.faults store.old) (S.faults store.new) (K.faults out.old) (K.faults out.new) }
{
    match read_all(alloc, store, program, limit(Kind::Source)) {
        Err(ReadRefusal::Memory) => OUT_OF_MEMORY,
        Err(ReadRefusal::Failed) => READ_FAULT,
        Err(ReadRefusal::TooLong) => {
            say_refused(Refusal::Check(CheckRefusal::TooMany(Kind::Source)), out)
        }
        Ok(bytes) => run_source(alloc, &bytes, input, schedule, store, out),
    }
}
