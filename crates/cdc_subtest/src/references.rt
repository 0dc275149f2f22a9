// The references to array elements of a body, in the order of their accesses.
ghost use Rattle.std.specs.Prelude.{◌≡◌, [], ◌∷◌, ◌++◌, map, IfOk, OnOk};
ghost use Rattle.cdc_prog.specs.Translation.{expr_of, exprs_of, control_of, stmt_of, stmts_of};
ghost use Rattle.cdc_prog.specs.Dependence.{inside, spot, expr_spots, exprs_spots, target_spots, control_spots, spots};
ghost use Rattle.cdc_subtest.specs.Seen.{seen, seen_of};

use crate::sketch::Sketch;
use crate::sketches::sketches;
use cdc_affine::{Index, Scope, add, range_of};
use cdc_base::{List, NoMemory};
use cdc_prog::{Control, Expr, Ref, Stmt, Target};
use std::alloc::Global;

/// A reference to an array element, with the form of each subscript.
#[derive(Drop)]
pub struct Reference {
    pub at: Ref,
    pub writes: bool,
    /// The constant of the first form, by which most forms differ; 0 where there is none.
    pub first: i64,
    pub subs: List<Option<Sketch>>,
}

fn inside(alloc: Global, scope: &Scope, i: Index) -> Result<Scope, NoMemory>
    ensures { IfOk result (λ s. s ≡ inside scope.now i) }
{
    let mut indexes = List::new(alloc);
    add(&mut indexes, i)?;
    for j in scope.indexes.as_slice() {
        add(&mut indexes, *j)?;
    }
    let mut fixed = List::new(alloc);
    for v in scope.fixed.as_slice() {
        add(&mut fixed, *v)?;
    }
    Ok(Scope { indexes, fixed })
}

fn first_constant(subs: &[Option<Sketch>]) -> i64 {
    match subs {
        [Some(s), ..] => s.rest,
        _ => 0,
    }
}

fn refer(
    alloc: Global,
    scope: &Scope,
    writes: bool,
    at: Ref,
    subs: &List<Expr>,
    out: &mut Vec<Reference>,
) -> Result<(), NoMemory>
    ensures { OnOk result (map seen_of out.new.items ≡ map seen_of out.old.items ++ seen (spot scope.now writes at (exprs_of subs.now)) ∷ []) }
{
    let subs = sketches(alloc, scope, subs.as_slice())?;
    let first = first_constant(subs.as_slice());
    out.push(Reference {
        at,
        writes,
        first,
        subs,
    })?;
    Ok(())
}

/// The references of an expression.
#[cycle(expr)]
fn expr_references(
    alloc: Global,
    scope: &Scope,
    e: &Expr,
    out: &mut Vec<Reference>,
) -> Result<(), NoMemory>
    ensures { OnOk result (map seen_of out.new.items ≡ map seen_of out.old.items ++ map seen (expr_spots scope.now (expr_of e.now))) }
{
    match e {
        Expr::Number(_) => Ok(()),
        Expr::Scalar(_) => Ok(()),
        Expr::Element(at, subs) => {
            exprs_references(alloc, scope, subs.as_slice(), out)?;
            refer(alloc, scope, false, *at, subs, out)
        }
        Expr::Un(_, a) => expr_references(alloc, scope, a, out),
        Expr::Bin(_, a, b) => {
            expr_references(alloc, scope, a, out)?;
            expr_references(alloc, scope, b, out)
        }
    }
}

/// The references of several expressions.
#[cycle(expr)]
fn exprs_references(
    alloc: Global,
    scope: &Scope,
    es: &[Expr],
    out: &mut Vec<Reference>,
) -> Result<(), NoMemory>
    ensures { OnOk result (map seen_of out.new.items ≡ map seen_of out.old.items ++ map seen (exprs_spots scope.now (exprs_of es.now))) }
{
    for e in es {
        expr_references(alloc, scope, e, out)?;
    }
    Ok(())
}

fn target_references(
    alloc: Global,
    scope: &Scope,
    t: &Target,
    out: &mut Vec<Reference>,
) -> Result<(), NoMemory>
    ensures { OnOk result (map seen_of out.new.items ≡ map seen_of out.old.items ++ map seen (target_spots scope.now t.now.at (exprs_of t.now.subs))) }
{
    if t.subs.as_slice().is_empty() {
        Ok(())
    } else {
        refer(alloc, scope, true, t.at, &t.subs, out)
    }
}

fn control_references(
    alloc: Global,
    scope: &Scope,
    k: &Control,
    out: &mut Vec<Reference>,
) -> Result<(), NoMemory>
    ensures { OnOk result (map seen_of out.new.items ≡ map seen_of out.old.items ++ map seen (control_spots scope.now (control_of k.now))) }
{
    expr_references(alloc, scope, &k.from, out)?;
    expr_references(alloc, scope, &k.to, out)?;
    expr_references(alloc, scope, &k.by, out)
}

/// The references of a statement.
#[cycle(stmt)]
fn stmt_references(
    alloc: Global,
    scope: &Scope,
    s: &Stmt,
    out: &mut Vec<Reference>,
) -> Result<(), NoMemory>
    ensures { OnOk result (map seen_of out.new.items ≡ map seen_of out.old.items ++ map seen (spots scope.now (stmt_of s.now))) }
{
    match s {
        Stmt::Assign { target, value, .. } => {
            exprs_references(alloc, scope, target.subs.as_slice(), out)?;
            expr_references(alloc, scope, value, out)?;
            target_references(alloc, scope, target, out)
        }
        Stmt::If { arms, other } => {
            for arm in arms.as_slice() {
                expr_references(alloc, scope, &arm.cond, out)?;
                stmts_references(alloc, scope, arm.body.as_slice(), out)?;
            }
            stmts_references(alloc, scope, other.as_slice(), out)
        }
        Stmt::Do {
            control,
            first,
            body,
            ..
        } => {
            control_references(alloc, scope, control, out)?;
            let i = Index {
                var: first.var,
                range: range_of(control),
            };
            let within = inside(alloc, scope, i)?;
            stmts_references(alloc, &within, body.as_slice(), out)
        }
        _ => Ok(()),
    }
}

/// The references of statements.
#[cycle(stmt)]
pub fn stmts_references(
    alloc: Global,
    scope: &Scope,
    ss: &[Stmt],
    out: &mut Vec<Reference>,
) -> Result<(), NoMemory>
    ensures { OnOk result (map seen_of out.new.items ≡ map seen_of out.old.items ++ map seen (spots scope.now (stmts_of ss.now))) }
{
    for s in ss {
        stmt_references(alloc, scope, s, out)?;
    }
    Ok(())
}
