// The lines on marks.
ghost use Rattle.std.specs.Prelude.{flat_map};
ghost use Rattle.cdc_base.specs.Gathered.{waiting};
ghost use Rattle.cdc_prog.specs.Translation.{program_of};
ghost use Rattle.cdc_text.specs.Pieces.{Gathers, Wrote};
ghost use Rattle.cdc_report.specs.MarkLines.{unit_lines, lists_of, unit_loops, marks_text};

use crate::accesses::{Sites, gather_stmts};
use crate::boundaries::{Lists, gather_loops};
use crate::operands::Named;
use cdc_base::{Gathered, Sink, SinkFault};
use cdc_prog::{Marks, Program};

// Gathers the lines on the accesses of all units.
fn gather_units<K: Sink>(
    out: &mut K,
    gathered: &mut Gathered,
    program: &Program,
    marks: &Marks,
) -> Result<(), SinkFault>
    ensures { Gathers (flat_map (unit_lines (program_of program.now) marks.now) (program_of program.now).units) result (K.taken out.old) (K.taken out.new) (waiting gathered.old) (waiting gathered.new) (K.faults out.old) (K.faults out.new) }
{
    for unit in program.units.as_slice() {
        let sites = Sites {
            objects: program.objects.as_slice(),
            dummies: unit.dummies.as_slice(),
            reads: marks.reads.as_slice(),
        };
        gather_stmts(out, gathered, &sites, &unit.body)?;
    }
    Ok(())
}

// Gathers the lines on the DOALLs of all units.
fn gather_doalls<K: Sink>(
    out: &mut K,
    gathered: &mut Gathered,
    program: &Program,
    marks: &Marks,
) -> Result<(), SinkFault>
    ensures { Gathers (flat_map (unit_loops (lists_of (program_of program.now) marks.now)) (program_of program.now).units) result (K.taken out.old) (K.taken out.new) (waiting gathered.old) (waiting gathered.new) (K.faults out.old) (K.faults out.new) }
{
    let lists = Lists {
        named: Named::by(program),
        entries: marks.entries.as_slice(),
        exits: marks.exits.as_slice(),
    };
    for unit in program.units.as_slice() {
        gather_loops(out, gathered, &lists, &unit.body)?;
    }
    Ok(())
}

/// Writes the marks of a program: a line for each access of memory, for a read with its mark, and for each DOALL two lines
/// with the objects that are written before its boundaries (docs/FORMATS.md).
///
/// # Errors
///
/// The sink failed when it had taken a front of the lines.
pub fn write_marks<K: Sink>(program: &Program, marks: &Marks, out: &mut K) -> Result<(), SinkFault>
    ensures { Wrote (marks_text (program_of program.now) marks.now) result (K.taken out.old) (K.taken out.new) (K.faults out.old) (K.faults out.new) }
{
    let mut gathered = Gathered::new();
    gather_units(out, &mut gathered, program, marks)?;
    gather_doalls(out, &mut gathered, program, marks)?;
    gathered.flush(out)
}
