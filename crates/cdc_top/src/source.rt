// The commands over a source alone.
ghost use Rattle.std.specs.Prelude.{◌≡◌};
ghost use Rattle.cdc_prog.specs.Translation.{program_of};
ghost use Rattle.cdc_report.specs.Listing.{code_text};
ghost use Rattle.cdc_report.specs.MarkLines.{marks_text};
ghost use Rattle.cdc_top.specs.Answer.{Ask, Said, SaidOneOf, SourceAnswers, TextAnswers, listing, ToolEnded};
ghost use Rattle.cdc_top.specs.Report.{answer};

use crate::check::{check_source, say_refused};
use crate::status::{DONE, OUT_OF_MEMORY, READ_FAULT, WRITE_FAULT};
use cdc_base::{ReadRefusal, Sink, Store, read_all};
use cdc_check::CheckRefusal;
use cdc_code::Code;
use cdc_compile::{Refusal, compile};
use cdc_prog::{Kind, Marks, Program, limit};
use cdc_report::{write_code, write_marks};
use std::alloc::Global;

/// What is asked of a source.
#[derive(Clone, Copy, Debug, PartialEq, Eq)]
pub enum Question {
    /// Whether it is accepted.
    Check,
    /// What the marks of its reads and its written lists are.
    Marking,
    /// What its code is.
    Listing,
}

fn say_marks<K: Sink>(program: &Program, marks: &Marks, out: &mut K) -> u8
    ensures { Said (answer (marks_text (program_of program.now) marks.now) DONE) result (K.taken out.old) (K.taken out.new) (K.faults out.old) (K.faults out.new) }
{
    match write_marks(program, marks, out) {
        Ok(()) => DONE,
        Err(_) => WRITE_FAULT,
    }
}

fn say_code<K: Sink>(program: &Program, code: &Code, out: &mut K) -> u8
    ensures { Said (answer (code_text (program_of program.now) code.now) DONE) result (K.taken out.old) (K.taken out.new) (K.faults out.old) (K.faults out.new) }
{
    match write_code(program, code, out) {
        Ok(()) => DONE,
        Err(_) => WRITE_FAULT,
    }
}

fn mark_source<K: Sink>(alloc: Global, source: &[u8], out: &mut K) -> u8
    ensures { SaidOneOf (TextAnswers marks_text source.now) result (K.taken out.old) (K.taken out.new) (K.faults out.old) (K.faults out.new) }
{
    match compile(alloc, source) {
        Ok(compiled) => say_marks(&compiled.program, &compiled.marks, out),
        Err(Refusal::Memory) => OUT_OF_MEMORY,
        Err(refusal) => say_refused(refusal, out),
    }
}

fn list_source<K: Sink>(alloc: Global, source: &[u8], out: &mut K) -> u8
    ensures { SaidOneOf (TextAnswers listing source.now) result (K.taken out.old) (K.taken out.new) (K.faults out.old) (K.faults out.new) }
{
    match compile(alloc, source) {
        Ok(compiled) => say_code(&compiled.program, &compiled.code, out),
        Err(Refusal::Memory) => OUT_OF_MEMORY,
        Err(refusal) => say_refused(refusal, out),
    }
}

fn answer_source<K: Sink>(alloc: Global, question: Question, source: &[u8], out: &mut K) -> u8
    ensures { SaidOneOf (SourceAnswers question source.now) result (K.taken out.old) (K.taken out.new) (K.faults out.old) (K.faults out.new) }
{
    match question {
        Question::Check => check_source(alloc, source, out),
        Question::Marking => mark_source(alloc, source, out),
        Question::Listing => list_source(alloc, source, out),
    }
}

/// Reads a program and answers a question on it. All memory is taken before the first byte is written.
pub fn ask_file<S: Store, K: Sink>(
    alloc: Global,
    question: Question,
    program: &str,
    store: &mut S,
    out: &mut K,
) -> u8
    ensures { ToolEnded (Ask question program.now) (S.told store.old) result
        (K.taken out.old) (K.taken out.new) (S.faults store.old) (S.faults store.new) (K.faults out.old) (K.faults out.new) }
{
    match read_all(alloc, store, program, limit(Kind::Source)) {
        Err(ReadRefusal::Memory) => OUT_OF_MEMORY,
        Err(ReadRefusal::Failed) => READ_FAULT,
        Err(ReadRefusal::TooLong) => {
            say_refused(Refusal::Check(CheckRefusal::TooMany(Kind::Source)), out)
        }
        Ok(bytes) => answer_source(alloc, question, &bytes, out),
    }
}
