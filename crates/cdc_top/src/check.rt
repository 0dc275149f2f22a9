// The command `check` over the bytes of its file.
ghost use Rattle.cdc_compile.specs.Refusals.{IsNamed};
ghost use Rattle.cdc_compile.specs.Texts.{refusal_text};
ghost use Rattle.cdc_prog.specs.Translation.{program_of};
ghost use Rattle.cdc_report.specs.Accepted.{accepted_text};
ghost use Rattle.cdc_top.specs.Answer.{Said, SaidOneOf, CheckAnswers};
ghost use Rattle.cdc_top.specs.Report.{answer};

use crate::status::{DONE, OUT_OF_MEMORY, PROGRAM_REFUSED, WRITE_FAULT};
use cdc_base::Sink;
use cdc_compile::{Refusal, program, write_refusal};
use cdc_prog::Program;
use cdc_report::write_accepted;
use std::alloc::Global;

fn say_accepted<K: Sink>(program: &Program, out: &mut K) -> u8
    ensures { Said (answer (accepted_text (program_of program.now)) DONE) result (K.taken out.old) (K.taken out.new) (K.faults out.old) (K.faults out.new) }
{
    match write_accepted(program, out) {
        Ok(()) => DONE,
        Err(_) => WRITE_FAULT,
    }
}

/// Writes the text of a refusal.
pub fn say_refused<K: Sink>(refusal: Refusal, out: &mut K) -> u8
    requires { IsNamed refusal }
    ensures { Said (answer (refusal_text refusal) PROGRAM_REFUSED) result (K.taken out.old) (K.taken out.new) (K.faults out.old) (K.faults out.new) }
{
    match write_refusal(&refusal, out) {
        Ok(()) => PROGRAM_REFUSED,
        Err(_) => WRITE_FAULT,
    }
}

/// Checks a source and writes that it is accepted, or its first refusal. All memory is taken before the first byte is written.
pub fn check_source<K: Sink>(alloc: Global, source: &[u8], out: &mut K) -> u8
    ensures { SaidOneOf (CheckAnswers source.now) result (K.taken out.old) (K.taken out.new) (K.faults out.old) (K.faults out.new) }
{
    match program(alloc, source) {
        Ok(program) => say_accepted(&program, out),
        Err(Refusal::Memory) => OUT_OF_MEMORY,
        Err(refusal) => say_refused(refusal, out),
    }
}
