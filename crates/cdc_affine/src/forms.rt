// The form of an expression: one walk gives the value of each part without references and the form of each part.
ghost use Rattle.std.specs.Prelude.{◌≡◌, true, [], Some, None, IfOk, IfSome};
ghost use Rattle.cdc_prog.specs.Translation.{expr_of};
ghost use Rattle.cdc_prog.specs.Affine.{index_in, is_in, is_index, is_small, IsSmall, bounded, sum_of, multiple, product_of, alone, form_un, difference_of, form_bin, form};
ghost use Rattle.cdc_affine.specs.Parts.{part_with, part_un, part_bin, part};

use crate::terms::{add, are_small, is_small, product, same_var, scaled, sum, sum_terms};
use cdc_base::{List, NoMemory};
use cdc_prog::{Affine, BinOp, Expr, Index, Scope, Term, UnOp, Var, binary, unary};
use std::alloc::Global;

/// The index of a variable, the innermost first.
pub fn index_in(indexes: &[Index], v: Var) -> Option<Index>
    ensures { result ≡ index_in indexes.now v }
{
    for i in indexes {
        if same_var(i.var, v) {
            return Some(*i);
        }
    }
    None
}

/// Whether a variable is one of these.
pub fn is_in(vars: &[Var], v: Var) -> bool
    ensures { result ≡ is_in vars.now v }
{
    for u in vars {
        if same_var(*u, v) {
            return true;
        }
    }
    false
}

/// Whether a variable is an index of the scope.
pub fn is_index(scope: &Scope, v: Var) -> bool
    ensures { result ≡ is_index scope.now v }
{
    match index_in(scope.indexes.as_slice(), v) {
        Some(_) => true,
        None => false,
    }
}

fn bounded(terms: List<Term>, rest: i64) -> Option<Affine>
    ensures value { result ≡ bounded terms rest }
    ensures small { IfSome result IsSmall }
{
    if is_small(rest) && are_small(terms.as_slice()) {
        Some(Affine { terms, rest })
    } else {
        None
    }
}

fn sum_of(alloc: Global, f: &Affine, g: &Affine) -> Result<Option<Affine>, NoMemory>
    requires left { IsSmall f.now }
    requires right { IsSmall g.now }
    ensures value { IfOk result (λ o. o ≡ sum_of f.now g.now) }
    ensures small { IfOk result (λ o. IfSome o IsSmall) }
{
    let terms = sum_terms(alloc, f.terms.as_slice(), g.terms.as_slice())?;
    Ok(bounded(terms, sum(f.rest, g.rest)))
}

fn multiple(alloc: Global, k: i64, f: &Affine) -> Result<Option<Affine>, NoMemory>
    requires factor { is_small k ≡ true }
    requires form { IsSmall f.now }
    ensures value { IfOk result (λ o. o ≡ multiple k f.now) }
    ensures small { IfOk result (λ o. IfSome o IsSmall) }
{
    let terms = scaled(alloc, k, f.terms.as_slice())?;
    Ok(bounded(terms, product(k, f.rest)))
}

fn product_of(alloc: Global, f: &Affine, g: &Affine) -> Result<Option<Affine>, NoMemory>
    requires left { IsSmall f.now }
    requires right { IsSmall g.now }
    ensures value { IfOk result (λ o. o ≡ product_of f.now g.now) }
    ensures small { IfOk result (λ o. IfSome o IsSmall) }
{
    if f.terms.as_slice().is_empty() {
        multiple(alloc, f.rest, g)
    } else if g.terms.as_slice().is_empty() {
        multiple(alloc, g.rest, f)
    } else {
        Ok(None)
    }
}

fn alone(alloc: Global, scope: &Scope, v: Var) -> Result<Option<Affine>, NoMemory>
    ensures value { IfOk result (λ o. o ≡ alone scope.now v) }
    ensures small { IfOk result (λ o. IfSome o IsSmall) }
{
    if is_index(scope, v) || is_in(scope.fixed.as_slice(), v) {
        let mut terms = List::new(alloc);
        add(&mut terms, Term { var: v, times: 1 })?;
        Ok(Some(Affine { terms, rest: 0 }))
    } else {
        Ok(None)
    }
}

fn form_un(alloc: Global, op: UnOp, f: &Affine) -> Result<Option<Affine>, NoMemory>
    requires { IsSmall f.now }
    ensures value { IfOk result (λ o. o ≡ form_un op f.now) }
    ensures small { IfOk result (λ o. IfSome o IsSmall) }
{
    match op {
        UnOp::Neg => multiple(alloc, -1, f),
        _ => Ok(None),
    }
}

fn difference_of(alloc: Global, f: &Affine, g: &Affine) -> Result<Option<Affine>, NoMemory>
    requires left { IsSmall f.now }
    requires right { IsSmall g.now }
    ensures value { IfOk result (λ o. o ≡ difference_of f.now g.now) }
    ensures small { IfOk result (λ o. IfSome o IsSmall) }
{
    match multiple(alloc, -1, g)? {
        Some(h) => sum_of(alloc, f, &h),
        None => Ok(None),
    }
}

fn form_bin(alloc: Global, op: BinOp, f: &Affine, g: &Affine) -> Result<Option<Affine>, NoMemory>
    requires left { IsSmall f.now }
    requires right { IsSmall g.now }
    ensures value { IfOk result (λ o. o ≡ form_bin op f.now g.now) }
    ensures small { IfOk result (λ o. IfSome o IsSmall) }
{
    match op {
        BinOp::Add => sum_of(alloc, f, g),
        BinOp::Sub => difference_of(alloc, f, g),
        BinOp::Mul => product_of(alloc, f, g),
        _ => Ok(None),
    }
}

// A form with the value of its tree, where that has no references and does not fault.
#[derive(Drop)]
struct Part {
    constant: Option<i64>,
    form: Affine,
}

fn constant_part(alloc: Global, n: i64) -> Option<Part>
    ensures value { result ≡ part_with (Some n) (bounded [] n) }
    ensures small { IfSome result (λ p. IsSmall p.form) }
{
    let form = bounded(List::new(alloc), n)?;
    Some(Part {
        constant: Some(n),
        form,
    })
}

fn other_part(form: Option<Affine>) -> Option<Part>
    requires { IfSome form IsSmall }
    ensures value { result ≡ part_with None form }
    ensures small { IfSome result (λ p. IsSmall p.form) }
{
    let form = form?;
    Some(Part {
        constant: None,
        form,
    })
}

fn part_un(alloc: Global, op: UnOp, a: &Part) -> Result<Option<Part>, NoMemory>
    requires { IsSmall a.now.form }
    ensures value { IfOk result (λ o. o ≡ part_un op a.now) }
    ensures small { IfOk result (λ o. IfSome o (λ p. IsSmall p.form)) }
{
    if let Some(x) = a.constant {
        if let Ok(n) = unary(op, x) {
            return Ok(constant_part(alloc, n));
        }
    }
    Ok(other_part(form_un(alloc, op, &a.form)?))
}

fn part_bin(alloc: Global, op: BinOp, a: &Part, b: &Part) -> Result<Option<Part>, NoMemory>
    requires left { IsSmall a.now.form }
    requires right { IsSmall b.now.form }
    ensures value { IfOk result (λ o. o ≡ part_bin op a.now b.now) }
    ensures small { IfOk result (λ o. IfSome o (λ p. IsSmall p.form)) }
{
    if let Some(x) = a.constant {
        if let Some(y) = b.constant {
            if let Ok(n) = binary(op, x, y) {
                return Ok(constant_part(alloc, n));
            }
        }
    }
    Ok(other_part(form_bin(alloc, op, &a.form, &b.form)?))
}

fn part_of(alloc: Global, e: &Expr, scope: &Scope) -> Result<Option<Part>, NoMemory>
    ensures value { IfOk result (λ o. o ≡ part scope.now (expr_of e.now)) }
    ensures small { IfOk result (λ o. IfSome o (λ p. IsSmall p.form)) }
{
    match e {
        Expr::Number(n) => Ok(constant_part(alloc, *n)),
        Expr::Scalar(at) => Ok(other_part(alone(alloc, scope, at.var)?)),
        Expr::Element(_, _) => Ok(None),
        Expr::Un(op, a) => match part_of(alloc, a, scope)? {
            Some(p) => part_un(alloc, *op, &p),
            None => Ok(None),
        },
        Expr::Bin(op, a, b) => match part_of(alloc, a, scope)? {
            Some(p) => match part_of(alloc, b, scope)? {
                Some(q) => part_bin(alloc, *op, &p, &q),
                None => Ok(None),
            },
            None => Ok(None),
        },
    }
}

/// The form of an expression, where it has one.
///
/// # Errors
///
/// Memory ran out.
pub fn form_of(alloc: Global, e: &Expr, scope: &Scope) -> Result<Option<Affine>, NoMemory>
    ensures value { IfOk result (λ o. o ≡ form scope.now (expr_of e.now)) }
    ensures small { IfOk result (λ o. IfSome o IsSmall) }
{
    match part_of(alloc, e, scope)? {
        Some(p) => Ok(Some(p.form)),
        None => Ok(None),
    }
}
