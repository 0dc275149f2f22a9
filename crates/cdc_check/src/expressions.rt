ghost use Rattle.std.specs.Prelude.{◌≡◌, map, IfOk};
ghost use Rattle.cdc_tree.specs.Plain as tree;
ghost use Rattle.cdc_prog.specs.Plain.{Bin};
ghost use Rattle.cdc_prog.specs.Translation.{expr_of};
ghost use Rattle.cdc_check.specs.Meanings.{meaning_of};
ghost use Rattle.cdc_check.specs.Expressions.{literal, name_expr, subscripted, begun, further, applied, resolved, resolved_in};

use crate::meaning::{Meaning, Names, reference, variable_in};
use cdc_base::List;
use cdc_names::add;
use cdc_prog::{BinOp, Expr, UnOp};
use cdc_tree::{Intrinsic, Named, Tree};
use std::alloc::{AllocError, Global};

fn literal(n: i64) -> Expr
    ensures { expr_of result ≡ literal n }
{
    Expr::Number(n)
}

fn name(names: &Names, sites: &mut u32, named: &Named) -> Expr
    ensures { (expr_of result, sites.new) ≡ name_expr (meaning_of names.now named.now.name) named.now.place sites.old }
{
    match names.meaning(named.name.as_slice()) {
        Some(Meaning::Number(x)) => literal(x),
        m => Expr::Scalar(reference(variable_in(m), named.place, sites)),
    }
}

fn subscripted(names: &Names, sites: &mut u32, named: &Named, subs: List<Expr>) -> Expr
    ensures { (expr_of result, sites.new) ≡ subscripted names.now named.now (map expr_of subs) sites.old }
{
    if subs.as_slice().is_empty() {
        return name(names, sites, named);
    }
    let at = reference(names.variable(named), named.place, sites);
    Expr::Element(at, subs)
}

/// What an expression or a condition resolves to, with sites from the next on.
#[cycle(expr)]
pub fn expr(alloc: Global, names: &Names, sites: &mut u32, t: &Tree) -> Result<Expr, AllocError>
    ensures { IfOk result (λ e. (expr_of e, sites.new) ≡ resolved names.now (tree.plain t.now) sites.old) }
{
    match t {
        Tree::Number(_, n) => Ok(literal(*n)),
        Tree::Name(n) => Ok(name(names, sites, n)),
        Tree::Apply(n, subs) => {
            let subs = exprs(alloc, names, sites, subs.as_slice())?;
            Ok(subscripted(names, sites, n, subs))
        }
        Tree::Paren(_, a) => expr(alloc, names, sites, a),
        Tree::Plus(_, a) => expr(alloc, names, sites, a),
        Tree::Un(_, op, a) => {
            let a = expr(alloc, names, sites, a)?;
            Ok(Expr::Un(*op, Box::new(alloc, a)?))
        }
        Tree::Bin(op, a, b) => {
            let a = expr(alloc, names, sites, a)?;
            let b = expr(alloc, names, sites, b)?;
            Ok(Expr::Bin(*op, Box::new(alloc, a)?, Box::new(alloc, b)?))
        }
        Tree::Known(_, which, args) => known(alloc, names, sites, *which, args.as_slice()),
    }
}

/// What several expressions resolve to, in order.
#[cycle(expr)]
pub fn exprs(
    alloc: Global,
    names: &Names,
    sites: &mut u32,
    ts: &[Tree],
) -> Result<List<Expr>, AllocError>
    ensures { IfOk result (λ es. (map expr_of es, sites.new) ≡ resolved_in names.now (tree.plains (map tree.plain ts.now)) sites.old) }
{
    let mut found = List::new(alloc);
    for t in ts {
        let e = expr(alloc, names, sites, t)?;
        add(&mut found, e)?;
    }
    Ok(found)
}

#[cycle(expr)]
fn known(
    alloc: Global,
    names: &Names,
    sites: &mut u32,
    which: Intrinsic,
    args: &[Tree],
) -> Result<Expr, AllocError>
    ensures { IfOk result (λ e. (expr_of e, sites.new) ≡ applied which (resolved_in names.now (tree.plains (map tree.plain args.now)) sites.old)) }
{
    match args {
        [] => Ok(Expr::Number(0)),
        [first, rest @ ..] => {
            let a = expr(alloc, names, sites, first)?;
            let mut value = begun(alloc, which, a)?;
            for t in rest {
                let b = expr(alloc, names, sites, t)?;
                value = further(alloc, which, value, b)?;
            }
            Ok(value)
        }
    }
}

fn begun(alloc: Global, which: Intrinsic, a: Expr) -> Result<Expr, AllocError>
    ensures { IfOk result (λ e. expr_of e ≡ begun which (expr_of a)) }
{
    match which {
        Intrinsic::Abs => Ok(Expr::Un(UnOp::Abs, Box::new(alloc, a)?)),
        _ => Ok(a),
    }
}

fn binary(alloc: Global, op: BinOp, a: Expr, b: Expr) -> Result<Expr, AllocError>
    ensures { IfOk result (λ e. expr_of e ≡ Bin op (expr_of a) (expr_of b)) }
{
    Ok(Expr::Bin(op, Box::new(alloc, a)?, Box::new(alloc, b)?))
}

fn further(alloc: Global, which: Intrinsic, a: Expr, b: Expr) -> Result<Expr, AllocError>
    ensures { IfOk result (λ e. expr_of e ≡ further which (expr_of a) (expr_of b)) }
{
    match which {
        Intrinsic::Abs => Ok(a),
        Intrinsic::Mod => binary(alloc, BinOp::Mod, a, b),
        Intrinsic::Min => binary(alloc, BinOp::Min, a, b),
        Intrinsic::Max => binary(alloc, BinOp::Max, a, b),
    }
}
