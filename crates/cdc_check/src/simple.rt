// Statements that are no construct.
ghost use Rattle.std.specs.Prelude.{◌≡◌, ◌∷◌, [], map, IfOk};
ghost use Rattle.cdc_tree.specs.Plain as tree;
ghost use Rattle.cdc_tree.specs.Forms as forms;
ghost use Rattle.cdc_prog.specs.Plain as plain;
ghost use Rattle.cdc_prog.specs.Translation.{expr_of, target_of, item_of, stmt_of, chain};
ghost use Rattle.cdc_check.specs.Statements.{assigned, target, targets, with_text, item, items, formed};

use crate::copies::bytes_of;
use crate::expressions::{expr, exprs};
use crate::meaning::{Names, numbered, reference};
use crate::progress::Progress;
use cdc_base::List;
use cdc_names::add;
use cdc_prog::{Arm, Expr, Item, Stmt, Target};
use cdc_tree::{Form, Shown, Spot, Statement, Tree};
use std::alloc::{AllocError, Global};

fn assign(
    alloc: Global,
    names: &Names,
    sites: &mut u32,
    line: u32,
    spot: &Spot,
    value: &Tree,
) -> Result<Stmt, AllocError>
    ensures { IfOk result (λ s. (stmt_of s, sites.new) ≡ assigned line names.now (forms.spot spot.now) (tree.plain value.now) sites.old) }
{
    let subs = exprs(alloc, names, sites, spot.subs.as_slice())?;
    let value = expr(alloc, names, sites, value)?;
    let at = reference(names.variable(&spot.name), spot.name.place, sites);
    Ok(Stmt::Assign {
        line,
        target: Target { at, subs },
        value,
    })
}

fn target(alloc: Global, names: &Names, sites: &mut u32, spot: &Spot) -> Result<Target, AllocError>
    ensures { IfOk result (λ t. (target_of t, sites.new) ≡ target names.now (forms.spot spot.now) sites.old) }
{
    let subs = exprs(alloc, names, sites, spot.subs.as_slice())?;
    let at = reference(names.variable(&spot.name), spot.name.place, sites);
    Ok(Target { at, subs })
}

fn targets(
    alloc: Global,
    names: &Names,
    sites: &mut u32,
    spots: &[Spot],
) -> Result<List<Target>, AllocError>
    ensures { IfOk result (λ ts. (map target_of ts, sites.new) ≡ targets names.now (map forms.spot spots.now) sites.old) }
{
    let mut found = List::new(alloc);
    for spot in spots {
        let t = target(alloc, names, sites, spot)?;
        add(&mut found, t)?;
    }
    Ok(found)
}

fn text(alloc: Global, state: &mut Progress, text: &List<u8>) -> Result<u32, AllocError>
    ensures { IfOk result (λ n. (n, state.new) ≡ with_text text.now state.old) }
{
    let number = numbered(state.texts.as_slice().len());
    let copy = bytes_of(alloc, text.as_slice())?;
    add(&mut state.texts, copy)?;
    Ok(number)
}

fn item(
    alloc: Global,
    names: &Names,
    state: &mut Progress,
    shown: &Shown,
) -> Result<Item, AllocError>
    ensures { IfOk result (λ i. (item_of i, state.new) ≡ item names.now (forms.shown shown.now) state.old) }
{
    match shown {
        Shown::Text(bytes) => Ok(Item::Text(text(alloc, state, bytes)?)),
        Shown::Value(t) => Ok(Item::Value(expr(alloc, names, &mut state.sites, t)?)),
    }
}

fn items(
    alloc: Global,
    names: &Names,
    state: &mut Progress,
    shown: &[Shown],
) -> Result<List<Item>, AllocError>
    ensures { IfOk result (λ is. (map item_of is, state.new) ≡ items names.now (map forms.shown shown.now) state.old) }
{
    let mut found = List::new(alloc);
    for s in shown {
        let i = item(alloc, names, state, s)?;
        add(&mut found, i)?;
    }
    Ok(found)
}

/// An IF without arms, which does nothing.
pub fn nothing(alloc: Global) -> Stmt
    ensures { stmt_of result ≡ plain.If plain.Skip }
{
    Stmt::If {
        arms: List::new(alloc),
        other: List::new(alloc),
    }
}

fn logical_if(alloc: Global, line: u32, cond: Expr, s: Stmt) -> Result<Stmt, AllocError>
    ensures { IfOk result (λ r. stmt_of r ≡ plain.If (plain.Arm line (expr_of cond) (chain (stmt_of s ∷ [])) plain.Skip)) }
{
    let mut body = List::new(alloc);
    add(&mut body, s)?;
    let mut arms = List::new(alloc);
    add(&mut arms, Arm { line, cond, body })?;
    Ok(Stmt::If {
        arms,
        other: List::new(alloc),
    })
}

#[cycle(form)]
fn form(
    alloc: Global,
    names: &Names,
    state: &mut Progress,
    f: &Form,
    line: u32,
) -> Result<Stmt, AllocError>
    ensures { IfOk result (λ s. (stmt_of s, state.new) ≡ formed (forms.form f.now) line names.now state.old) }
{
    match f {
        Form::Assign(spot, value) => assign(alloc, names, &mut state.sites, line, spot, value),
        Form::LogicalIf(cond, s) => {
            let cond = expr(alloc, names, &mut state.sites, cond)?;
            let s = statement(alloc, names, state, s, line)?;
            logical_if(alloc, line, cond, s)
        }
        Form::Print(shown) => {
            let items = items(alloc, names, state, shown.as_slice())?;
            Ok(Stmt::Print { line, items })
        }
        Form::Read(spots) => {
            let targets = targets(alloc, names, &mut state.sites, spots.as_slice())?;
            Ok(Stmt::Read { line, targets })
        }
        _ => Ok(nothing(alloc)),
    }
}

/// What a statement that is no construct resolves to; faults in it have this line.
#[cycle(form)]
pub fn statement(
    alloc: Global,
    names: &Names,
    state: &mut Progress,
    s: &Statement,
    line: u32,
) -> Result<Stmt, AllocError>
    ensures { IfOk result (λ r. (stmt_of r, state.new) ≡ formed ((forms.statement s.now).form) line names.now state.old) }
{
    form(alloc, names, state, &s.form, line)
}
