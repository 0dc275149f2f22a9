// Expressions that are equal but for sites and places, and what they mention.
ghost use Rattle.std.specs.Prelude.{◌≡◌, Decides};
ghost use Rattle.cdc_prog.specs.declared.expr.Ref.{Ref as PlainRef};
ghost use Rattle.cdc_prog.specs.Plain.{Number};
ghost use Rattle.cdc_prog.specs.Sameness.{unsited, AreSame, SubsAreSame};
ghost use Rattle.cdc_prog.specs.Translation.{expr_of, exprs_of};
ghost use Rattle.cdc_prog.specs.Uses.{ExprMentions, SubsMention};
ghost use Rattle.cdc_path.specs.Covers.{ExprIsPlain, ArePlain};
ghost use Rattle.cdc_mark.specs.Covered.{scalar_of};

use cdc_prog::{BinOp, Expr, UnOp, Var};

/// Whether two variables are one.
pub fn is_var(a: Var, b: Var) -> bool
    ensures { Decides result (a ≡ b) }
{
    match (a, b) {
        (Var::Object(m), Var::Object(n)) => m == n,
        (Var::Dummy(m), Var::Dummy(n)) => m == n,
        (Var::Slot(m), Var::Slot(n)) => m == n,
        _ => false,
    }
}

fn is_un(a: UnOp, b: UnOp) -> bool
    ensures { Decides result (a ≡ b) }
{
    a == b
}

fn is_bin(a: BinOp, b: BinOp) -> bool
    ensures { Decides result (a ≡ b) }
{
    a == b
}

// Whether no element of an array stands in an expression.
fn is_plain(e: &Expr) -> bool
    ensures { Decides result (ExprIsPlain (expr_of e.now)) }
{
    match e {
        Expr::Number(_) | Expr::Scalar(_) => true,
        Expr::Element(_, _) => false,
        Expr::Un(_, a) => is_plain(a),
        Expr::Bin(_, a, b) => is_plain(a) && is_plain(b),
    }
}

/// Whether no element of an array stands in subscripts.
pub fn are_plain(es: &[Expr]) -> bool
    ensures { Decides result (ArePlain (exprs_of es.now)) }
{
    match es {
        [] => true,
        [e, rest @ ..] => is_plain(e) && are_plain(rest),
    }
}

// Whether an expression without array elements mentions a variable.
fn mentions(e: &Expr, var: Var) -> bool
    ensures { ExprIsPlain (expr_of e.now) → Decides result (ExprMentions (λ (r : PlainRef). r.var ≡ var) (expr_of e.now)) }
{
    match e {
        Expr::Number(_) | Expr::Element(_, _) => false,
        Expr::Scalar(at) => is_var(at.var, var),
        Expr::Un(_, a) => mentions(a, var),
        Expr::Bin(_, a, b) => mentions(a, var) || mentions(b, var),
    }
}

/// Whether subscripts without array elements mention a variable.
pub fn any_mentions(es: &[Expr], var: Var) -> bool
    ensures { ArePlain (exprs_of es.now) → Decides result (SubsMention (λ (r : PlainRef). r.var ≡ var) (exprs_of es.now)) }
{
    match es {
        [] => false,
        [e, rest @ ..] => mentions(e, var) || any_mentions(rest, var),
    }
}

fn is_number(e: &Expr, n: i64) -> bool
    ensures { Decides result (unsited (expr_of e.now) ≡ Number n) }
{
    match e {
        Expr::Number(m) => *m == n,
        Expr::Scalar(_) | Expr::Element(_, _) | Expr::Un(_, _) | Expr::Bin(_, _, _) => false,
    }
}

fn is_scalar(e: &Expr, var: Var) -> bool
    ensures { Decides result (unsited (expr_of e.now) ≡ scalar_of var) }
{
    match e {
        Expr::Scalar(at) => is_var(at.var, var),
        Expr::Number(_) | Expr::Element(_, _) | Expr::Un(_, _) | Expr::Bin(_, _, _) => false,
    }
}

// Whether an expression is equal to one without array elements.
fn is_same(a: &Expr, b: &Expr) -> bool
    ensures { ExprIsPlain (expr_of b.now) → Decides result (AreSame (expr_of a.now) (expr_of b.now)) }
{
    match b {
        Expr::Number(n) => is_number(a, *n),
        Expr::Scalar(at) => is_scalar(a, at.var),
        Expr::Element(_, _) => false,
        Expr::Un(op, x) => match a {
            Expr::Un(o, y) => is_un(*o, *op) && is_same(y, x),
            Expr::Number(_) | Expr::Scalar(_) | Expr::Element(_, _) | Expr::Bin(_, _, _) => false,
        },
        Expr::Bin(op, x, u) => match a {
            Expr::Bin(o, y, v) => is_bin(*o, *op) && is_same(y, x) && is_same(v, u),
            Expr::Number(_) | Expr::Scalar(_) | Expr::Element(_, _) | Expr::Un(_, _) => false,
        },
    }
}

/// Whether subscripts are equal to ones without array elements.
pub fn are_same(xs: &[Expr], ys: &[Expr]) -> bool
    ensures { ArePlain (exprs_of ys.now) → Decides result (SubsAreSame (exprs_of xs.now) (exprs_of ys.now)) }
{
    match ys {
        [] => match xs {
            [] => true,
            [_, ..] => false,
        },
        [y, rest @ ..] => match xs {
            [] => false,
            [x, more @ ..] => is_same(x, y) && are_same(more, rest),
        },
    }
}
