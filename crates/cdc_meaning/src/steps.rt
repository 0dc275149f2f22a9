// What statements do that print nothing and hold no statements.
ghost use Rattle.std.specs.Prelude.{◌≡◌, length, IfOk};
ghost use Rattle.cdc_prog.specs.Resolved.{ExprFits, TargetFits, ControlFits, IsScalar};
ghost use Rattle.cdc_prog.specs.Statements.{assign};
ghost use Rattle.cdc_prog.specs.Translation.{expr_of, target_of, control_of};
ghost use Rattle.cdc_meaning.specs.Frames.{shapes_of, binding, IsPlaced};
ghost use Rattle.cdc_prog.specs.Held.{store_of};
ghost use Rattle.cdc_meaning.specs.Evaluates.{StepsAlone};
ghost use Rattle.cdc_meaning.specs.Loops.{Begins, HasCell, raised_by};

use crate::cell::{Cell, fetch, keep, scalar};
use crate::expr::{at_line, computed, located, value};
use crate::frame::Frame;
use cdc_prog::{BinOp, Control, Expr, Fault, Ref, Target, binary, turns};

/// An assignment: the target's subscripts, the test of the bounds, the value, and the store (ISO/IEC
/// 1539:1991, section 7.5.1).
///
/// # Errors
///
/// The first fault, at the line.
#[inline(always)]
pub fn assign(
    frame: &Frame,
    words: &mut [i64],
    slots: &mut [i64],
    line: u32,
    target: &Target,
    e: &Expr,
) -> Result<(), Fault>
    requires placed { IsPlaced frame.now }
    requires room { length words.old ≡ frame.now.program.now.words }
    requires target { TargetFits frame.now.program.now.objects (shapes_of frame.now) (length slots.old) (target_of target.now) }
    requires value { ExprFits frame.now.program.now.objects (shapes_of frame.now) (length slots.old) (expr_of e.now) }
    ensures { StepsAlone (assign (binding frame.now) line (target_of target.now) (expr_of e.now)) slots.old (store_of words.old) result slots.new (store_of words.new) }
{
    if !target.subs.as_slice().is_empty() {
        return assign_element(frame, words, slots, line, target, e);
    }
    // `?` would move the value through memory.
    let got = computed(frame, words, slots, line, e);
    match got {
        Ok(v) => {
            keep(words, slots, scalar(frame, slots, target.at.var), v);
            Ok(())
        }
        Err(fault) => Err(fault),
    }
}

// An assignment, whose target may have subscripts.
#[inline(always)]
fn assign_element(
    frame: &Frame,
    words: &mut [i64],
    slots: &mut [i64],
    line: u32,
    target: &Target,
    e: &Expr,
) -> Result<(), Fault>
    requires placed { IsPlaced frame.now }
    requires room { length words.old ≡ frame.now.program.now.words }
    requires target { TargetFits frame.now.program.now.objects (shapes_of frame.now) (length slots.old) (target_of target.now) }
    requires value { ExprFits frame.now.program.now.objects (shapes_of frame.now) (length slots.old) (expr_of e.now) }
    ensures { StepsAlone (assign (binding frame.now) line (target_of target.now) (expr_of e.now)) slots.old (store_of words.old) result slots.new (store_of words.new) }
{
    let cell = located(frame, words, slots, line, target)?;
    // `?` would move the value through memory.
    match computed(frame, words, slots, line, e) {
        Ok(v) => {
            keep(words, slots, cell, v);
            Ok(())
        }
        Err(fault) => Err(fault),
    }
}

/// The turns of a DO loop, and what raises its variable after each; the cell is that of the variable.
#[derive(Clone, Copy)]
pub struct Turns {
    pub line: u32,
    pub again: Ref,
    pub bump: Ref,
    pub cell: Cell,
    pub by: i64,
    pub count: u128,
}

/// A DO loop begins (ISO/IEC 1539:1991, section 8.1.4.4.1): its controls are evaluated in order, and
/// the first value is stored in its variable.
///
/// # Errors
///
/// The first fault, at the line of the loop; a step of 0 is one.
pub fn begin(
    frame: &Frame,
    words: &mut [i64],
    slots: &mut [i64],
    control: &Control,
    first: Ref,
    again: Ref,
    bump: Ref,
) -> Result<Turns, Fault>
    requires placed { IsPlaced frame.now }
    requires room { length words.old ≡ frame.now.program.now.words }
    requires fits { ControlFits frame.now.program.now.objects (shapes_of frame.now) (length slots.old) (control_of control.now) }
    requires first { IsScalar frame.now.program.now.objects (shapes_of frame.now) (length slots.old) first.var }
    requires again { again.var ≡ first.var }
    requires bump { bump.var ≡ first.var }
    ensures begins { Begins (binding frame.now) (control_of control.now) first again bump slots.old (store_of words.old) result slots.new (store_of words.new) }
    ensures same { IfOk result (λ t. (t.again ≡ again) × (t.bump ≡ bump)) }
    ensures cell { IfOk result (HasCell frame.now (length slots.new)) }
{
    let line = control.line;
    let from = value(frame, words, slots, line, &control.from)?;
    let to = value(frame, words, slots, line, &control.to)?;
    let by = value(frame, words, slots, line, &control.by)?;
    let count = at_line(turns(from, to, by), line)?;
    let cell = scalar(frame, slots, first.var);
    keep(words, slots, cell, from);
    Ok(Turns {
        line,
        again,
        bump,
        cell,
        by,
        count,
    })
}

/// The variable of a DO loop is raised by its step.
///
/// # Errors
///
/// `Overflow` at the line of the loop, where the result is out of range.
pub fn raise(frame: &Frame, words: &mut [i64], slots: &mut [i64], turns: Turns) -> Result<(), Fault>
    requires room { length words.old ≡ frame.now.program.now.words }
    requires cell { HasCell frame.now (length slots.old) turns }
    ensures { StepsAlone (raised_by (binding frame.now) turns) slots.old (store_of words.old) result slots.new (store_of words.new) }
{
    let x = fetch(words, slots, turns.cell);
    let y = at_line(binary(BinOp::Add, x, turns.by), turns.line)?;
    keep(words, slots, turns.cell, y);
    Ok(())
}
