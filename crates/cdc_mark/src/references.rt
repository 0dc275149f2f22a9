// The references of a unit in the order of the accesses, each with its object and its section.
ghost use Rattle.std.specs.Prelude.{◌≡◌, [], ◌∷◌, ◌++◌, map, slice_get, length, ◌<◌, IfOk, OnOk};
ghost use Rattle.cdc_prog.specs.Translation.{expr_of, exprs_of, control_of, item_of, target_of, actual_of, stmt_of, stmts_of, program_of};
ghost use Rattle.cdc_prog.specs.Data.{dims_in, dims_of};
ghost use Rattle.cdc_prog.specs.Dependence.{inside, spot, range_of};
ghost use Rattle.cdc_prog.specs.Sections.{section};
ghost use Rattle.cdc_prog.specs.Plain.{Empty};
ghost use Rattle.cdc_path.specs.References.{expr_refs, exprs_refs, controls_refs, items_refs, reads_refs, actuals_refs, refs};
ghost use Rattle.cdc_mark.specs.Seen.{unbound, object_in, seen, main_refs};

use cdc_affine::{Index, Scope, add, range_of};
use cdc_base::{List, NoMemory};
use cdc_num::Triplet;
use cdc_prog::{Actual, Control, Expr, Item, Object, Program, Ref, Stmt, Target, Var};
use cdc_section::section_of;
use std::alloc::Global;

/// A reference: its site, whether it writes, its object, of which a slot has none, and its section.
#[derive(Drop)]
pub struct Reference {
    pub site: u32,
    pub writes: bool,
    pub object: Option<u32>,
    pub section: List<Triplet>,
}

fn object_in(var: Var) -> Option<u32>
    ensures { result ≡ object_in var }
{
    match var {
        Var::Object(k) => Some(k),
        Var::Dummy(_) => Some(0),
        Var::Slot(_) => None,
    }
}

// The section of a reference to an object; none where there is no such object.
#[tactic(auto, using(crate::proofs::Sets::object_there, crate::proofs::Sets::object_absent))]
fn section_at(
    alloc: Global,
    objects: &[Object],
    scope: &Scope,
    at: usize,
    subs: &List<Expr>,
) -> Result<List<Triplet>, NoMemory>
    ensures { IfOk result (λ ts. ts ≡ section scope.now (exprs_of subs.now) (dims_in (slice_get objects.now at))) }
{
    if at < objects.len() {
        let object = &objects[at];
        section_of(alloc, subs, &object.dims, scope)
    } else {
        Ok(List::new(alloc))
    }
}

#[tactic(auto, using(crate::proofs::Sets::no_dims))]
fn section_in(
    alloc: Global,
    objects: &[Object],
    scope: &Scope,
    var: Var,
    subs: &List<Expr>,
) -> Result<List<Triplet>, NoMemory>
    ensures { IfOk result (λ ts. ts ≡ section scope.now (exprs_of subs.now) (dims_of (unbound objects.now) var)) }
{
    match var {
        Var::Object(k) => section_at(alloc, objects, scope, k as usize, subs),
        Var::Dummy(_) | Var::Slot(_) => Ok(List::new(alloc)),
    }
}

fn refer(
    alloc: Global,
    objects: &[Object],
    scope: &Scope,
    writes: bool,
    at: Ref,
    subs: &List<Expr>,
    out: &mut Vec<Reference>,
) -> Result<(), NoMemory>
    ensures { OnOk result (out.new.items ≡ out.old.items ++ seen (unbound objects.now) (spot scope.now writes at (exprs_of subs.now)) ∷ []) }
{
    let section = section_in(alloc, objects, scope, at.var, subs)?;
    out.push(Reference {
        site: at.site,
        writes,
        object: object_in(at.var),
        section,
    })?;
    Ok(())
}

fn refer_scalar(
    alloc: Global,
    objects: &[Object],
    scope: &Scope,
    writes: bool,
    at: Ref,
    out: &mut Vec<Reference>,
) -> Result<(), NoMemory>
    ensures { OnOk result (out.new.items ≡ out.old.items ++ seen (unbound objects.now) (spot scope.now writes at Empty) ∷ []) }
{
    refer(alloc, objects, scope, writes, at, &List::new(alloc), out)
}

#[cycle(expr)]
fn expr_references(
    alloc: Global,
    objects: &[Object],
    scope: &Scope,
    e: &Expr,
    out: &mut Vec<Reference>,
) -> Result<(), NoMemory>
    ensures { OnOk result (out.new.items ≡ out.old.items ++ map (seen (unbound objects.now)) (expr_refs scope.now (expr_of e.now))) }
{
    match e {
        Expr::Number(_) => Ok(()),
        Expr::Scalar(at) => refer_scalar(alloc, objects, scope, false, *at, out),
        Expr::Element(at, subs) => {
            exprs_references(alloc, objects, scope, subs.as_slice(), out)?;
            refer(alloc, objects, scope, false, *at, subs, out)
        }
        Expr::Un(_, a) => expr_references(alloc, objects, scope, a, out),
        Expr::Bin(_, a, b) => {
            expr_references(alloc, objects, scope, a, out)?;
            expr_references(alloc, objects, scope, b, out)
        }
    }
}

#[cycle(expr)]
fn exprs_references(
    alloc: Global,
    objects: &[Object],
    scope: &Scope,
    es: &[Expr],
    out: &mut Vec<Reference>,
) -> Result<(), NoMemory>
    ensures { OnOk result (out.new.items ≡ out.old.items ++ map (seen (unbound objects.now)) (exprs_refs scope.now (exprs_of es.now))) }
{
    for e in es {
        expr_references(alloc, objects, scope, e, out)?;
    }
    Ok(())
}

fn controls_references(
    alloc: Global,
    objects: &[Object],
    scope: &Scope,
    k: &Control,
    out: &mut Vec<Reference>,
) -> Result<(), NoMemory>
    ensures { OnOk result (out.new.items ≡ out.old.items ++ map (seen (unbound objects.now)) (controls_refs scope.now (control_of k.now))) }
{
    expr_references(alloc, objects, scope, &k.from, out)?;
    expr_references(alloc, objects, scope, &k.to, out)?;
    expr_references(alloc, objects, scope, &k.by, out)
}

fn items_references(
    alloc: Global,
    objects: &[Object],
    scope: &Scope,
    items: &[Item],
    out: &mut Vec<Reference>,
) -> Result<(), NoMemory>
    ensures { OnOk result (out.new.items ≡ out.old.items ++ map (seen (unbound objects.now)) (items_refs scope.now (map item_of items.now))) }
{
    for item in items {
        if let Item::Value(value) = item {
            expr_references(alloc, objects, scope, value, out)?;
        }
    }
    Ok(())
}

fn targets_references(
    alloc: Global,
    objects: &[Object],
    scope: &Scope,
    targets: &[Target],
    out: &mut Vec<Reference>,
) -> Result<(), NoMemory>
    ensures { OnOk result (out.new.items ≡ out.old.items ++ map (seen (unbound objects.now)) (reads_refs scope.now (map target_of targets.now))) }
{
    for t in targets {
        exprs_references(alloc, objects, scope, t.subs.as_slice(), out)?;
        refer(alloc, objects, scope, true, t.at, &t.subs, out)?;
    }
    Ok(())
}

fn actuals_references(
    alloc: Global,
    objects: &[Object],
    scope: &Scope,
    actuals: &[Actual],
    out: &mut Vec<Reference>,
) -> Result<(), NoMemory>
    ensures { OnOk result (out.new.items ≡ out.old.items ++ map (seen (unbound objects.now)) (actuals_refs scope.now (map actual_of actuals.now))) }
{
    for actual in actuals {
        if let Actual::Copy(at, value) = actual {
            expr_references(alloc, objects, scope, value, out)?;
            refer_scalar(alloc, objects, scope, true, *at, out)?;
        }
    }
    Ok(())
}

// A scope with one more index inside.
fn inside(alloc: Global, scope: &Scope, i: Index) -> Result<Scope, NoMemory>
    ensures { IfOk result (λ s. s ≡ inside scope.now i) }
{
    let mut indexes = List::new(alloc);
    add(&mut indexes, i)?;
    for j in scope.indexes.as_slice() {
        add(&mut indexes, *j)?;
    }
    let mut fixed = List::new(alloc);
    for v in scope.fixed.as_slice() {
        add(&mut fixed, *v)?;
    }
    Ok(Scope { indexes, fixed })
}

fn inside_do(alloc: Global, scope: &Scope, control: &Control, var: Var) -> Result<Scope, NoMemory>
    ensures { IfOk result (λ s. s ≡ inside scope.now (record { var = var; range = range_of (control_of control.now) })) }
{
    let range = range_of(control);
    inside(alloc, scope, Index { var, range })
}

#[cycle(stmt)]
fn stmt_references(
    alloc: Global,
    objects: &[Object],
    scope: &Scope,
    s: &Stmt,
    out: &mut Vec<Reference>,
) -> Result<(), NoMemory>
    ensures { OnOk result (out.new.items ≡ out.old.items ++ map (seen (unbound objects.now)) (refs scope.now (stmt_of s.now))) }
{
    match s {
        Stmt::Assign { target, value, .. } => {
            exprs_references(alloc, objects, scope, target.subs.as_slice(), out)?;
            expr_references(alloc, objects, scope, value, out)?;
            refer(alloc, objects, scope, true, target.at, &target.subs, out)
        }
        Stmt::If { arms, other } => {
            for arm in arms.as_slice() {
                expr_references(alloc, objects, scope, &arm.cond, out)?;
                stmts_references(alloc, objects, scope, arm.body.as_slice(), out)?;
            }
            stmts_references(alloc, objects, scope, other.as_slice(), out)
        }
        Stmt::Do {
            control,
            first,
            body,
            again,
            bump,
        } => {
            controls_references(alloc, objects, scope, control, out)?;
            refer_scalar(alloc, objects, scope, true, *first, out)?;
            let within = inside_do(alloc, scope, control, first.var)?;
            stmts_references(alloc, objects, &within, body.as_slice(), out)?;
            refer_scalar(alloc, objects, scope, false, *again, out)?;
            refer_scalar(alloc, objects, scope, true, *bump, out)
        }
        Stmt::Doall { control, body, .. } => {
            controls_references(alloc, objects, scope, control, out)?;
            let within = inside_do(alloc, scope, control, Var::Slot(0))?;
            stmts_references(alloc, objects, &within, body.as_slice(), out)
        }
        Stmt::Call { actuals, .. } => {
            actuals_references(alloc, objects, scope, actuals.as_slice(), out)
        }
        Stmt::Print { items, .. } => items_references(alloc, objects, scope, items.as_slice(), out),
        Stmt::Read { targets, .. } => {
            targets_references(alloc, objects, scope, targets.as_slice(), out)
        }
    }
}

/// The references of statements.
#[cycle(stmt)]
pub fn stmts_references(
    alloc: Global,
    objects: &[Object],
    scope: &Scope,
    ss: &[Stmt],
    out: &mut Vec<Reference>,
) -> Result<(), NoMemory>
    ensures { OnOk result (out.new.items ≡ out.old.items ++ map (seen (unbound objects.now)) (refs scope.now (stmts_of ss.now))) }
{
    for s in ss {
        stmt_references(alloc, objects, scope, s, out)?;
    }
    Ok(())
}

/// The references of the main unit.
///
/// # Errors
///
/// Memory ran out.
pub fn main_references(alloc: Global, program: &Program) -> Result<Vec<Reference>, NoMemory>
    requires { program.now.main < length program.now.units }
    ensures { IfOk result (λ refs. refs.items ≡ main_refs (program_of program.now)) }
{
    let units = program.units.as_slice();
    let main = program.main;
    let body = units[main as usize].body.as_slice();
    let outside = Scope {
        indexes: List::new(alloc),
        fixed: List::new(alloc),
    };
    let mut refs = Vec::new(alloc);
    stmts_references(alloc, program.objects.as_slice(), &outside, body, &mut refs)?;
    Ok(refs)
}
