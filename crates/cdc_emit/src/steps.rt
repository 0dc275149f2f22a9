// The instructions that are written so far.
ghost use Rattle.std.specs.Prelude.{◌≡◌, ◌<◌, [], ◌∷◌, ◌++◌, OnOk, length, slice_set};
ghost use Rattle.cdc_code.specs.Template.{at_line};

use cdc_base::{List, NoMemory};
use cdc_code::{Instr, Step};

/// The place of the instruction that is written next.
pub fn next_place(steps: &List<Step>) -> usize
    ensures { result ≡ length steps.now }
{
    steps.as_slice().len()
}

/// Writes an instruction behind the others.
///
/// # Errors
///
/// Want of memory.
pub fn put(steps: &mut List<Step>, line: u32, instr: Instr) -> Result<(), NoMemory>
    ensures { OnOk result (steps.new ≡ steps.old ++ at_line line instr ∷ []) }
{
    match steps.push(Step { instr, line }) {
        Ok(()) => Ok(()),
        Err(_) => Err(NoMemory),
    }
}

/// Writes an instruction in place of the one at `place`.
pub fn replace(steps: &mut List<Step>, place: usize, line: u32, instr: Instr)
    requires { place < length steps.old }
    ensures { steps.new ≡ slice_set steps.old place (at_line line instr) }
{
    steps.set(place, Step { instr, line });
}
