// The listing of code.
ghost use Rattle.cdc_base.specs.Gathered.{waiting};
ghost use Rattle.cdc_prog.specs.Translation.{program_of};
ghost use Rattle.cdc_text.specs.Pieces.{Gathers, Wrote};
ghost use Rattle.cdc_report.specs.Listing.{code_text, step_line};

use crate::names::name_of;
use crate::operands::Named;
use cdc_base::{Gathered, Sink, SinkFault};
use cdc_code::{Code, Step};
use cdc_prog::Program;
use cdc_text::{Text, gather_texts};

// Gathers the line of an instruction at a place.
fn gather_step<K: Sink>(
    out: &mut K,
    gathered: &mut Gathered,
    named: &Named,
    place: u64,
    step: &Step,
) -> Result<(), SinkFault>
    ensures { Gathers (step_line named.now place step.now) result (K.taken out.old) (K.taken out.new) (waiting gathered.old) (waiting gathered.new) (K.faults out.old) (K.faults out.new) }
{
    let name = Text::Words(name_of(step.instr));
    gather_texts(
        out,
        gathered,
        &[Text::Number(place), Text::Words(b" "), name],
    )?;
    gather_texts(out, gathered, &named.operands(step.instr))?;
    gather_texts(out, gathered, &[Text::Words(b"\n")])
}

/// Writes the listing of a program's code: a line for each instruction, with its place from 0, its name and its operands
/// (docs/FORMATS.md).
///
/// # Errors
///
/// The sink failed when it had taken a front of the listing.
pub fn write_code<K: Sink>(program: &Program, code: &Code, out: &mut K) -> Result<(), SinkFault>
    ensures { Wrote (code_text (program_of program.now) code.now) result (K.taken out.old) (K.taken out.new) (K.faults out.old) (K.faults out.new) }
{
    let named = Named::by(program);
    let mut gathered = Gathered::new();
    let mut place = 0;
    for step in code.steps.as_slice() {
        gather_step(out, &mut gathered, &named, place, step)?;
        place += 1;
    }
    gathered.flush(out)
}
