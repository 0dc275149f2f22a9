ghost use Rattle.std.specs.Prelude.{◌≡◌, map, option_map, IfOk};
ghost use Rattle.cdc_tree.specs.Plain as tree;
ghost use Rattle.cdc_tree.specs.Forms as forms;
ghost use Rattle.cdc_tree.specs.Units as units;
ghost use Rattle.cdc_prog.specs.Translation.{expr_of, control_of, stmt_of, arm_of};
ghost use Rattle.cdc_check.specs.Statements.{step_expr, controls, condition, counted, parallel, looped, arm, noded, nodes_in, arms_in};

use crate::expressions::expr;
use crate::meaning::{Names, next, numbered, reference};
use crate::progress::Progress;
use crate::simple::{nothing, statement};
use cdc_base::List;
use cdc_names::add;
use cdc_prog::{Arm, Control, Expr, Stmt};
use cdc_tree::{Branch, Form, Loop, Named, Node, Statement, Tree};
use std::alloc::{AllocError, Global};

fn step(
    alloc: Global,
    names: &Names,
    sites: &mut u32,
    by: &Option<Tree>,
) -> Result<Expr, AllocError>
    ensures { IfOk result (λ e. (expr_of e, sites.new) ≡ step_expr names.now (option_map tree.plain by.now) sites.old) }
{
    match by {
        None => Ok(Expr::Number(1)),
        Some(t) => expr(alloc, names, sites, t),
    }
}

fn controls(
    alloc: Global,
    names: &Names,
    sites: &mut u32,
    line: u32,
    l: &Loop,
) -> Result<Control, AllocError>
    ensures { IfOk result (λ c. (control_of c, sites.new) ≡ controls line names.now (forms.loop l.now) sites.old) }
{
    let from = expr(alloc, names, sites, &l.from)?;
    let to = expr(alloc, names, sites, &l.to)?;
    let by = step(alloc, names, sites, &l.by)?;
    Ok(Control { line, from, to, by })
}

fn condition(alloc: Global, names: &Names, sites: &mut u32, head: &Form) -> Result<Expr, AllocError>
    ensures { IfOk result (λ e. (expr_of e, sites.new) ≡ condition (forms.form head.now) names.now sites.old) }
{
    match head {
        Form::IfThen(c) => expr(alloc, names, sites, c),
        Form::ElseIf(c) => expr(alloc, names, sites, c),
        _ => Ok(Expr::Number(1)),
    }
}

#[cycle(node)]
fn counted(
    alloc: Global,
    names: &Names,
    state: &mut Progress,
    body: &[Node],
    line: u32,
    l: &Loop,
) -> Result<Stmt, AllocError>
    ensures { IfOk result (λ s. (stmt_of s, state.new) ≡ counted line names.now (forms.loop l.now) (nodes_in (units.body body.now)) state.old) }
{
    let var = names.variable(&l.var);
    let place = l.var.place;
    let control = controls(alloc, names, &mut state.sites, line, l)?;
    let first = reference(var, place, &mut state.sites);
    let body = nodes(alloc, names, state, body)?;
    let again = reference(var, place, &mut state.sites);
    let bump = reference(var, place, &mut state.sites);
    Ok(Stmt::Do {
        control,
        first,
        body,
        again,
        bump,
    })
}

#[cycle(node)]
fn parallel(
    alloc: Global,
    names: &Names,
    state: &mut Progress,
    body: &[Node],
    line: u32,
    l: &Loop,
    privates: &[Named],
) -> Result<Stmt, AllocError>
    ensures { IfOk result (λ s. (stmt_of s, state.new) ≡ parallel line names.now (forms.loop l.now) privates.now (nodes_in (units.body body.now)) state.old) }
{
    let control = controls(alloc, names, &mut state.sites, line, l)?;
    let number = next(state.doalls);
    state.doalls = number;
    let inside = Names {
        table: names.table,
        index: Some(&l.var),
        privates,
    };
    let body = nodes(alloc, &inside, state, body)?;
    Ok(Stmt::Doall {
        control,
        number,
        slots: next(numbered(privates.len())),
        body,
    })
}

#[cycle(node)]
fn looped(
    alloc: Global,
    names: &Names,
    state: &mut Progress,
    body: &[Node],
    head: &Statement,
) -> Result<Stmt, AllocError>
    ensures { IfOk result (λ s. (stmt_of s, state.new) ≡ looped head.now.place.line (forms.form head.now.form) (nodes_in (units.body body.now)) names.now state.old) }
{
    let line = head.place.line;
    match &head.form {
        Form::Do(l) => counted(alloc, names, state, body, line, l),
        Form::Doall(l, privates) => {
            parallel(alloc, names, state, body, line, l, privates.as_slice())
        }
        _ => Ok(nothing(alloc)),
    }
}

/// What a statement or construct resolves to.
#[cycle(node)]
pub fn node(
    alloc: Global,
    names: &Names,
    state: &mut Progress,
    n: &Node,
) -> Result<Stmt, AllocError>
    ensures { IfOk result (λ s. (stmt_of s, state.new) ≡ noded (units.node n.now) names.now state.old) }
{
    match n {
        Node::Plain(s) => statement(alloc, names, state, s, s.place.line),
        Node::If(bs, last, _) => {
            let arms = branches(alloc, names, state, bs.as_slice())?;
            let other = match last {
                None => List::new(alloc),
                Some(b) => nodes(alloc, names, state, b.body.as_slice())?,
            };
            Ok(Stmt::If { arms, other })
        }
        Node::Loop(head, body, _) => looped(alloc, names, state, body.as_slice(), head),
    }
}

/// What several statements and constructs resolve to, in order.
#[cycle(node)]
pub fn nodes(
    alloc: Global,
    names: &Names,
    state: &mut Progress,
    ns: &[Node],
) -> Result<List<Stmt>, AllocError>
    ensures { IfOk result (λ ss. (map stmt_of ss, state.new) ≡ nodes_in (units.body ns.now) names.now state.old) }
{
    let mut found = List::new(alloc);
    for n in ns {
        let s = node(alloc, names, state, n)?;
        add(&mut found, s)?;
    }
    Ok(found)
}

#[cycle(node)]
fn branch(alloc: Global, names: &Names, state: &mut Progress, b: &Branch) -> Result<Arm, AllocError>
    ensures { IfOk result (λ a. (arm_of a, state.new) ≡ arm (units.branch b.now).0 (nodes_in (units.branch b.now).1) names.now state.old) }
{
    let cond = condition(alloc, names, &mut state.sites, &b.head.form)?;
    let body = nodes(alloc, names, state, b.body.as_slice())?;
    Ok(Arm {
        line: b.head.place.line,
        cond,
        body,
    })
}

#[cycle(node)]
fn branches(
    alloc: Global,
    names: &Names,
    state: &mut Progress,
    bs: &[Branch],
) -> Result<List<Arm>, AllocError>
    ensures { IfOk result (λ found. (map arm_of found, state.new) ≡ arms_in (units.branches_of (map units.branch bs.now)) names.now state.old) }
{
    let mut found = List::new(alloc);
    for b in bs {
        let a = branch(alloc, names, state, b)?;
        add(&mut found, a)?;
    }
    Ok(found)
}
