// Loads and stores of variables.
ghost use Rattle.std.specs.Prelude.{◌≡◌};
ghost use Rattle.cdc_prog.specs.Marked.{mark_of};
ghost use Rattle.cdc_prog.specs.Translation.{exprs_of};
ghost use Rattle.cdc_code.specs.Template.{get_instr, set_instr, store_instr};

use cdc_code::Instr;
use cdc_prog::{Mark, Target, Var};

/// The mark of a site.
pub fn mark_of(marks: &[Mark], site: u32) -> Mark
    ensures { result ≡ mark_of marks.now site }
{
    marks
        .get(site.saturating_sub(1) as usize)
        .copied()
        .unwrap_or(Mark::Ordinary)
}

/// The instruction that pushes a scalar.
pub fn get_instr(marks: &[Mark], site: u32, var: Var) -> Instr
    ensures { result ≡ get_instr marks.now site var }
{
    match var {
        Var::Slot(slot) => Instr::Local(slot),
        Var::Object(_) | Var::Dummy(_) => Instr::Load(var, site, mark_of(marks, site)),
    }
}

/// The instruction that pops a value into a scalar.
pub fn set_instr(site: u32, var: Var) -> Instr
    ensures { result ≡ set_instr site var }
{
    match var {
        Var::Slot(slot) => Instr::Setlocal(slot),
        Var::Object(_) | Var::Dummy(_) => Instr::Store(var, site),
    }
}

/// The instruction that pops a value into a target.
pub fn store_instr(target: &Target) -> Instr
    ensures { result ≡ store_instr target.now.at (exprs_of target.now.subs) }
{
    let at = target.at;
    if target.subs.as_slice().is_empty() {
        return set_instr(at.site, at.var);
    }
    Instr::Storee(at.var, at.site)
}
