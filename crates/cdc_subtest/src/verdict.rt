// The test of a DOALL.
ghost use Rattle.std.specs.Prelude.{◌≡◌, map, IfOk};
ghost use Rattle.cdc_prog.specs.Dependence.{scope_of, shapes_of, first_in, failing};
ghost use Rattle.cdc_prog.specs.Iterations.{KeepsPremises, IteratesApart};
ghost use Rattle.cdc_prog.specs.Translation.{control_of, stmt_of, stmts_of, program_of, unit_of};
ghost use Rattle.cdc_subtest.specs.Seen.{doall_places, places_in, places_of_units};
ghost use Rattle.cdc_subtest.specs.Verdicts.{verdict_of};

use crate::pairs::first_failing;
use crate::references::stmts_references;
use crate::scalars::fixed_scalars;
use cdc_affine::{Index, Scope, add, constant, range_of};
use cdc_base::{List, NoMemory, Place};
use cdc_prog::{Control, Dummy, Object, Program, Stmt, Unit, Var};
use std::alloc::Global;

/// Whether the iterations of a DOALL are apart.
#[derive(Clone, Copy, Debug, PartialEq, Eq)]
pub enum Verdict {
    Apart,
    /// The places of the first pair of references that nothing tells apart.
    Conflict(Place, Place),
}

fn scope_of(alloc: Global, control: &Control, fixed: List<Var>) -> Result<Scope, NoMemory>
    ensures { IfOk result (λ s. s ≡ scope_of (control_of control.now) fixed) }
{
    let mut indexes = List::new(alloc);
    add(
        &mut indexes,
        Index {
            var: Var::Slot(0),
            range: range_of(control),
        },
    )?;
    Ok(Scope { indexes, fixed })
}

fn doall_places(
    alloc: Global,
    control: &Control,
    fixed: List<Var>,
    body: &[Stmt],
) -> Result<Option<(Place, Place)>, NoMemory>
    ensures { IfOk result (λ o. o ≡ doall_places (control_of control.now) fixed (stmts_of body.now)) }
{
    let scope = scope_of(alloc, control, fixed)?;
    let mut references = Vec::new(alloc);
    stmts_references(alloc, &scope, body, &mut references)?;
    Ok(first_failing(constant(&control.by), references.as_slice()))
}

/// The places of the first failing pair of a DOALL.
///
/// # Errors
///
/// Memory ran out.
pub fn places_in(
    alloc: Global,
    objects: &[Object],
    dummies: &[Dummy],
    control: &Control,
    slots: u32,
    body: &[Stmt],
) -> Result<Option<(Place, Place)>, NoMemory>
    ensures { IfOk result (λ o. o ≡ places_in objects.now (shapes_of dummies.now) (control_of control.now) slots (stmts_of body.now)) }
{
    let fixed = fixed_scalars(alloc, objects, dummies, slots, body)?;
    doall_places(alloc, control, fixed, body)
}

#[cycle(places)]
fn numbered_in(
    alloc: Global,
    number: u32,
    objects: &[Object],
    dummies: &[Dummy],
    s: &Stmt,
) -> Result<Option<(Place, Place)>, NoMemory>
    ensures { IfOk result (λ o. o ≡ first_in number (places_in objects.now (shapes_of dummies.now)) (stmt_of s.now)) }
{
    match s {
        Stmt::If { arms, other } => {
            for arm in arms.as_slice() {
                let found = numbered_in_all(alloc, number, objects, dummies, arm.body.as_slice())?;
                if let Some(pair) = found {
                    return Ok(Some(pair));
                }
            }
            numbered_in_all(alloc, number, objects, dummies, other.as_slice())
        }
        Stmt::Do { body, .. } => numbered_in_all(alloc, number, objects, dummies, body.as_slice()),
        Stmt::Doall {
            control,
            number: own,
            slots,
            body,
        } => {
            if *own == number {
                places_in(alloc, objects, dummies, control, *slots, body.as_slice())
            } else {
                Ok(None)
            }
        }
        _ => Ok(None),
    }
}

#[cycle(places)]
fn numbered_in_all(
    alloc: Global,
    number: u32,
    objects: &[Object],
    dummies: &[Dummy],
    ss: &[Stmt],
) -> Result<Option<(Place, Place)>, NoMemory>
    ensures { IfOk result (λ o. o ≡ first_in number (places_in objects.now (shapes_of dummies.now)) (stmts_of ss.now)) }
{
    for s in ss {
        let found = numbered_in(alloc, number, objects, dummies, s)?;
        if let Some(pair) = found {
            return Ok(Some(pair));
        }
    }
    Ok(None)
}

fn places_of_units(
    alloc: Global,
    number: u32,
    objects: &[Object],
    units: &[Unit],
) -> Result<Option<(Place, Place)>, NoMemory>
    ensures { IfOk result (λ o. o ≡ places_of_units number objects.now (map unit_of units.now)) }
{
    for u in units {
        let dummies = u.dummies.as_slice();
        let found = numbered_in_all(alloc, number, objects, dummies, u.body.as_slice())?;
        if let Some(pair) = found {
            return Ok(Some(pair));
        }
    }
    Ok(None)
}

/// The test of the DOALL with this number. A pair is named by the places of its references, the first in the text's
/// order of accesses first.
///
/// # Errors
///
/// Memory ran out.
pub fn test(alloc: Global, program: &Program, doall: u32) -> Result<Verdict, NoMemory>
    ensures verdict { IfOk result (λ v. v ≡ verdict_of (failing (program_of program.now) doall)) }
    ensures apart { IfOk result (λ v. v ≡ Verdict.Apart → KeepsPremises (program_of program.now) → IteratesApart (program_of program.now) doall) }
{
    let units = program.units.as_slice();
    match places_of_units(alloc, doall, program.objects.as_slice(), units)? {
        None => Ok(Verdict::Apart),
        Some((p, q)) => Ok(Verdict::Conflict(p, q)),
    }
}
