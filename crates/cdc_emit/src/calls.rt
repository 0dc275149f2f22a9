// The code of CALL.
ghost use Rattle.std.specs.Prelude.{◌≡◌, [], ◌∷◌, ◌++◌, OnOk, map};
ghost use Rattle.cdc_prog.specs.Translation.{actual_of};
ghost use Rattle.cdc_code.specs.declared.instr.Instr.TheVariants.{Call};
ghost use Rattle.cdc_code.specs.Template.{at_line, passed_code};

use crate::access::set_instr;
use crate::expressions::emit_expression;
use crate::steps::put;
use cdc_base::{List, NoMemory};
use cdc_code::{Instr, Step};
use cdc_prog::{Actual, Mark};

/// Writes the code of a CALL of the unit of this number.
///
/// # Errors
///
/// Want of memory.
pub fn emit_call(
    marks: &[Mark],
    steps: &mut List<Step>,
    line: u32,
    unit: u32,
    actuals: &[Actual],
) -> Result<(), NoMemory>
    ensures { OnOk result (steps.new ≡ steps.old
        ++ (passed_code marks.now line (map actual_of actuals.now) ++ at_line line (Call unit) ∷ [])) }
{
    emit_actuals(marks, steps, line, actuals)?;
    put(steps, line, Instr::Call(unit))
}

// Writes the code that gathers arguments in order.
fn emit_actuals(
    marks: &[Mark],
    steps: &mut List<Step>,
    line: u32,
    actuals: &[Actual],
) -> Result<(), NoMemory>
    ensures { OnOk result (steps.new ≡ steps.old ++ passed_code marks.now line (map actual_of actuals.now)) }
{
    for actual in actuals {
        emit_actual(marks, steps, line, actual)?;
    }
    Ok(())
}

// Writes the code of one argument: a value is stored in its hidden object first.
fn emit_actual(
    marks: &[Mark],
    steps: &mut List<Step>,
    line: u32,
    actual: &Actual,
) -> Result<(), NoMemory>
    ensures { OnOk result (steps.new ≡ steps.old ++ passed_code marks.now line (actual_of actual.now ∷ [])) }
{
    match actual {
        Actual::Whole(var) => put(steps, line, Instr::Arg(*var)),
        Actual::Copy(at, value) => {
            emit_expression(marks, steps, line, value)?;
            put(steps, line, set_instr(at.site, at.var))?;
            put(steps, line, Instr::Arg(at.var))
        }
    }
}
