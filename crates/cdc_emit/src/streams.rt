// The code of PRINT and READ.
ghost use Rattle.std.specs.Prelude.{◌≡◌, [], ◌∷◌, ◌++◌, OnOk, map, true};
ghost use Rattle.cdc_prog.specs.Translation.{item_of, target_of};
ghost use Rattle.cdc_code.specs.declared.instr.Instr.TheVariants.{Take};
ghost use Rattle.cdc_code.specs.Template.{at_line, target_code, target_store, items_code, reads_code};
ghost use Rattle.cdc_emit.specs.Parts.{gap_code, item_code};

use crate::access::store_instr;
use crate::expressions::{emit_expression, emit_location};
use crate::steps::put;
use cdc_base::{List, NoMemory};
use cdc_code::{Instr, Step};
use cdc_prog::{Item, Mark, Target};

/// Writes the code of a PRINT.
///
/// # Errors
///
/// Want of memory.
pub fn emit_print(
    marks: &[Mark],
    steps: &mut List<Step>,
    line: u32,
    items: &[Item],
) -> Result<(), NoMemory>
    ensures { OnOk result (steps.new ≡ steps.old ++ items_code marks.now line true (map item_of items.now)) }
{
    let mut is_first = true;
    for item in items {
        emit_item(marks, steps, line, is_first, item)?;
        is_first = false;
    }
    put(steps, line, Instr::Line)
}

// Writes the code of an item of a PRINT: the space between two items comes when the value of the second is known.
fn emit_item(
    marks: &[Mark],
    steps: &mut List<Step>,
    line: u32,
    is_first: bool,
    item: &Item,
) -> Result<(), NoMemory>
    ensures { OnOk result (steps.new ≡ steps.old ++ item_code marks.now line is_first (item_of item.now)) }
{
    match item {
        Item::Text(number) => {
            emit_gap(steps, line, is_first)?;
            put(steps, line, Instr::Text(*number))
        }
        Item::Value(value) => {
            emit_expression(marks, steps, line, value)?;
            emit_gap(steps, line, is_first)?;
            put(steps, line, Instr::Put)
        }
    }
}

// Writes the space before an item other than the first.
fn emit_gap(steps: &mut List<Step>, line: u32, is_first: bool) -> Result<(), NoMemory>
    ensures { OnOk result (steps.new ≡ steps.old ++ gap_code line is_first) }
{
    if is_first {
        return Ok(());
    }
    put(steps, line, Instr::Gap)
}

/// Writes the code of a READ.
///
/// # Errors
///
/// Want of memory.
pub fn emit_read(
    marks: &[Mark],
    steps: &mut List<Step>,
    line: u32,
    targets: &[Target],
) -> Result<(), NoMemory>
    ensures { OnOk result (steps.new ≡ steps.old ++ reads_code marks.now line (map target_of targets.now)) }
{
    for target in targets {
        emit_read_target(marks, steps, line, target)?;
    }
    put(steps, line, Instr::RecordEnd)
}

// Writes the code that reads a value into a target.
fn emit_read_target(
    marks: &[Mark],
    steps: &mut List<Step>,
    line: u32,
    target: &Target,
) -> Result<(), NoMemory>
    ensures { OnOk result (steps.new ≡ steps.old ++ (target_code marks.now line (target_of target.now)
        ++ at_line line Take ∷ target_store marks.now line (target_of target.now) ∷ [])) }
{
    emit_location(marks, steps, line, target)?;
    put(steps, line, Instr::Take)?;
    put(steps, line, store_instr(target))
}
