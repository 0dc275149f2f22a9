// The code of a program.
ghost use Rattle.std.specs.Prelude.{◌≡◌, [], ◌∷◌, ◌++◌, IfOk, OnOk, length, map};
ghost use Rattle.cdc_prog.specs.Translation.{program_of, unit_of, stmts_of};
ghost use Rattle.cdc_code.specs.Template.{at_line, code_of, end_instr, stmt_code, units_code, unit_starts};

use crate::copies::{copied_lists, copied_objects, shapes};
use crate::statements::emit_statements;
use crate::steps::{next_place, put};
use cdc_base::{List, NoMemory};
use cdc_code::{Code, Instr, Step};
use cdc_prog::{Mark, Marks, Program, Unit};
use std::alloc::Global;

/// The code of a program with these marks.
///
/// # Errors
///
/// Want of memory; so also where a place in the code does not fit 32 bits, or the operand of a jump 31: that much code
/// needs more memory than there is.
pub fn emit(alloc: Global, program: &Program, marks: &Marks) -> Result<Code, NoMemory>
    ensures { IfOk result (λ code. code ≡ code_of (program_of program.now) marks.now) }
{
    let units = program.units.as_slice();
    let mut steps = List::new(alloc);
    let starts = emit_units(
        alloc,
        marks.reads.as_slice(),
        &mut steps,
        program.main,
        units,
    )?;
    Ok(Code {
        steps,
        starts,
        main: program.main,
        shapes: shapes(alloc, units)?,
        objects: copied_objects(alloc, program.objects.as_slice())?,
        texts: copied_lists(alloc, program.texts.as_slice())?,
        entries: copied_lists(alloc, marks.entries.as_slice())?,
        exits: copied_lists(alloc, marks.exits.as_slice())?,
        words: program.words,
    })
}

// Writes the code of units in order, of which `main` is the main program, and gives the place where each begins.
fn emit_units(
    alloc: Global,
    marks: &[Mark],
    steps: &mut List<Step>,
    main: u32,
    units: &[Unit],
) -> Result<List<u32>, NoMemory>
    ensures steps { OnOk result (steps.new ≡ steps.old ++ units_code marks.now main 0 (map unit_of units.now)) }
    ensures starts { IfOk result (λ starts. starts
        ≡ unit_starts marks.now main 0 (map unit_of units.now) (length steps.old)) }
{
    let mut starts = Vec::new(alloc);
    for (number, unit) in units.iter().enumerate() {
        starts.push(start(steps)?)?;
        emit_unit(alloc, marks, steps, number == main as usize, unit)?;
    }
    Ok(List::of(starts))
}

// Where a unit begins that is written next.
fn start(steps: &List<Step>) -> Result<u32, NoMemory>
    ensures { IfOk result (λ start. start ≡ length steps.now) }
{
    let place = next_place(steps);
    if place > u32::MAX as usize {
        return Err(NoMemory);
    }
    Ok(place as u32)
}

// Writes the code of a unit.
fn emit_unit(
    alloc: Global,
    marks: &[Mark],
    steps: &mut List<Step>,
    is_main: bool,
    unit: &Unit,
) -> Result<(), NoMemory>
    ensures { OnOk result (steps.new ≡ steps.old
        ++ (stmt_code marks.now (stmts_of unit.now.body) ++ at_line 0 (end_instr marks.now is_main) ∷ [])) }
{
    emit_statements(alloc, marks, steps, unit.body.as_slice())?;
    let end = if is_main { Instr::Halt } else { Instr::Return };
    put(steps, 0, end)
}
