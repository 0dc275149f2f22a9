// The scalars that keep their value in the body of a DOALL.
ghost use Rattle.std.specs.Prelude.{◌≡◌, [], ◌++◌, ◌-◌, map, OnOk, IfOk};
ghost use Rattle.cdc_prog.specs.declared.expr.Var.TheVariants as var;
ghost use Rattle.cdc_prog.specs.Translation.{stmt_of, stmts_of};
ghost use Rattle.cdc_prog.specs.Dependence.{stored_scalars, fixed_from, private_from, fixed_scalars, object_shapes, shapes_of};

use cdc_affine::{add, is_in};
use cdc_base::{List, NoMemory};
use cdc_prog::{Dummy, Object, Stmt, Var};
use std::alloc::Global;

#[cycle(stored)]
fn stored_in(s: &Stmt, out: &mut List<Var>) -> Result<(), NoMemory>
    ensures { OnOk result (out.new ≡ out.old ++ stored_scalars (stmt_of s.now)) }
{
    match s {
        Stmt::Assign { target, .. } => {
            if target.subs.as_slice().is_empty() {
                add(out, target.at.var)
            } else {
                Ok(())
            }
        }
        Stmt::If { arms, other } => {
            for arm in arms.as_slice() {
                stored_in_all(arm.body.as_slice(), out)?;
            }
            stored_in_all(other.as_slice(), out)
        }
        Stmt::Do { first, body, .. } => {
            add(out, first.var)?;
            stored_in_all(body.as_slice(), out)
        }
        _ => Ok(()),
    }
}

#[cycle(stored)]
fn stored_in_all(ss: &[Stmt], out: &mut List<Var>) -> Result<(), NoMemory>
    ensures { OnOk result (out.new ≡ out.old ++ stored_scalars (stmts_of ss.now)) }
{
    for s in ss {
        stored_in(s, out)?;
    }
    Ok(())
}

fn fixed_objects(stored: &[Var], objects: &[Object], out: &mut List<Var>) -> Result<(), NoMemory>
    ensures { OnOk result (out.new ≡ out.old ++ fixed_from stored.now var.Object 0 (object_shapes objects.now)) }
{
    let mut k: u32 = 0;
    for o in objects {
        if o.dims.as_slice().is_empty() && !is_in(stored, Var::Object(k)) {
            add(out, Var::Object(k))?;
        }
        k = k.checked_add(1).ok_or(NoMemory)?;
    }
    Ok(())
}

fn fixed_dummies(stored: &[Var], dummies: &[Dummy], out: &mut List<Var>) -> Result<(), NoMemory>
    ensures { OnOk result (out.new ≡ out.old ++ fixed_from stored.now var.Dummy 0 (shapes_of dummies.now)) }
{
    let mut k: u32 = 0;
    for d in dummies {
        if d.dims.as_slice().is_empty() && !is_in(stored, Var::Dummy(k)) {
            add(out, Var::Dummy(k))?;
        }
        k = k.checked_add(1).ok_or(NoMemory)?;
    }
    Ok(())
}

fn fixed_slots(stored: &[Var], slots: u32, out: &mut List<Var>) -> Result<(), NoMemory>
    ensures { OnOk result (out.new ≡ out.old ++ private_from stored.now 1 (slots - 1)) }
{
    for k in 1..slots {
        if !is_in(stored, Var::Slot(k)) {
            add(out, Var::Slot(k))?;
        }
    }
    Ok(())
}

/// The scalars of a unit, and of the iterations, in which the body does not store.
///
/// # Errors
///
/// Memory ran out.
pub fn fixed_scalars(
    alloc: Global,
    objects: &[Object],
    dummies: &[Dummy],
    slots: u32,
    body: &[Stmt],
) -> Result<List<Var>, NoMemory>
    ensures { IfOk result (λ l. l ≡ fixed_scalars objects.now (shapes_of dummies.now) slots (stmts_of body.now)) }
{
    let mut stored = List::new(alloc);
    stored_in_all(body, &mut stored)?;
    let mut out = List::new(alloc);
    fixed_objects(stored.as_slice(), objects, &mut out)?;
    fixed_dummies(stored.as_slice(), dummies, &mut out)?;
    fixed_slots(stored.as_slice(), slots, &mut out)?;
    Ok(out)
}
