// The code of statements.
ghost use Rattle.std.specs.Prelude.{◌≡◌, ◌-◌, [], ◌∷◌, ◌++◌, OnOk, IfOk, length};
ghost use Rattle.cdc_prog.specs.Plain.{Stmt as PlainStmt};
ghost use Rattle.cdc_prog.specs.Translation.{expr_of, target_of, control_of, stmt_of, stmts_of, arms_of};
ghost use Rattle.cdc_code.specs.declared.instr.Instr.TheVariants.{Doinit};
ghost use Rattle.cdc_code.specs.Template.{at_line, set_instr, expr_code, controls_code, assign_code, doall_code, turns_code, stmt_code};
ghost use Rattle.cdc_emit.specs.Parts.{has_code, arm_code, pending_code, pending_at, AreWithin, closed};

use crate::access::{get_instr, set_instr, store_instr};
use crate::calls::emit_call;
use crate::conditions::{Pending, close, emit_leave, has_code, is_followed};
use crate::expressions::{emit_controls, emit_expression, emit_location};
use crate::jumps::{fork, jump_back, jump_if_zero, loop_test};
use crate::steps::{next_place, put, replace};
use crate::streams::{emit_print, emit_read};
use cdc_base::{List, NoMemory};
use cdc_code::{Instr, Step};
use cdc_prog::{Arm, Control, Expr, Mark, Ref, Stmt, Target};
use std::alloc::Global;

/// Writes the code of statements in order.
///
/// # Errors
///
/// Want of memory.
#[cycle(statement)]
pub fn emit_statements(
    alloc: Global,
    marks: &[Mark],
    steps: &mut List<Step>,
    statements: &[Stmt],
) -> Result<(), NoMemory>
    ensures { OnOk result (steps.new ≡ steps.old ++ stmt_code marks.now (stmts_of statements.now)) }
{
    for statement in statements {
        emit_statement(alloc, marks, steps, statement)?;
    }
    Ok(())
}

// Writes the code of a statement.
#[cycle(statement)]
fn emit_statement(
    alloc: Global,
    marks: &[Mark],
    steps: &mut List<Step>,
    statement: &Stmt,
) -> Result<(), NoMemory>
    ensures { OnOk result (steps.new ≡ steps.old ++ stmt_code marks.now (stmt_of statement.now)) }
{
    match statement {
        Stmt::Assign {
            line,
            target,
            value,
        } => emit_assign(marks, steps, *line, target, value),
        Stmt::If { arms, other } => {
            let other_has_code = has_code(other.as_slice());
            let ends = emit_arms(alloc, marks, steps, arms.as_slice(), other_has_code)?;
            emit_statements(alloc, marks, steps, other.as_slice())?;
            close(steps, ends)
        }
        Stmt::Do {
            control,
            first,
            body,
            again,
            bump,
        } => {
            emit_first(marks, steps, control, *first)?;
            emit_turns(alloc, marks, steps, body.as_slice(), control, *again, *bump)
        }
        Stmt::Doall {
            control,
            number,
            slots: _,
            body,
        } => emit_doall(alloc, marks, steps, body.as_slice(), control, *number),
        Stmt::Call {
            line,
            unit,
            actuals,
        } => emit_call(marks, steps, *line, *unit, actuals.as_slice()),
        Stmt::Print { line, items } => emit_print(marks, steps, *line, items.as_slice()),
        Stmt::Read { line, targets } => emit_read(marks, steps, *line, targets.as_slice()),
    }
}

// Writes the code of an assignment: the subscripts of the target, the value, the store.
fn emit_assign(
    marks: &[Mark],
    steps: &mut List<Step>,
    line: u32,
    target: &Target,
    value: &Expr,
) -> Result<(), NoMemory>
    ensures { OnOk result (steps.new ≡ steps.old ++ assign_code marks.now line (target_of target.now) (expr_of value.now)) }
{
    emit_location(marks, steps, line, target)?;
    emit_expression(marks, steps, line, value)?;
    put(steps, line, store_instr(target))
}

// Writes the code of the arms of an IF, where it is said whether the other part has code. The jumps from the arms to the
// end are given, to be written when the other part is.
#[cycle(statement)]
fn emit_arms(
    alloc: Global,
    marks: &[Mark],
    steps: &mut List<Step>,
    arms: &[Arm],
    other_has_code: bool,
) -> Result<Vec<Pending>, NoMemory>
    ensures within { IfOk result (λ ends. AreWithin steps.new ends.items) }
    ensures closed { IfOk result (λ ends. (other : PlainStmt) → other_has_code ≡ has_code other
        → closed ends.items (steps.new ++ stmt_code marks.now other)
        ≡ steps.old ++ stmt_code marks.now (arms_of arms.now other)) }
{
    let mut ends = Vec::new(alloc);
    for (number, arm) in arms.iter().enumerate() {
        let is_followed = is_followed(arms, number, other_has_code);
        emit_arm(alloc, marks, steps, arm, is_followed, &mut ends)?;
    }
    Ok(ends)
}

// Writes the code of an arm.
#[cycle(statement)]
fn emit_arm(
    alloc: Global,
    marks: &[Mark],
    steps: &mut List<Step>,
    arm: &Arm,
    is_followed: bool,
    ends: &mut Vec<Pending>,
) -> Result<(), NoMemory>
    ensures steps { OnOk result (steps.new ≡ steps.old ++ arm_code arm.now.line
        (expr_code marks.now arm.now.line (expr_of arm.now.cond)) (stmt_code marks.now (stmts_of arm.now.body))
        (pending_code arm.now.line is_followed)) }
    ensures ends { OnOk result (ends.new.items ≡ ends.old.items
        ++ pending_at (length steps.new - 1) arm.now.line is_followed) }
{
    let line = arm.line;
    emit_expression(marks, steps, line, &arm.cond)?;
    let test = next_place(steps);
    put(steps, line, Instr::Jumpz(0))?;
    emit_statements(alloc, marks, steps, arm.body.as_slice())?;
    emit_leave(steps, ends, line, is_followed)?;
    let instr = jump_if_zero(test, next_place(steps))?;
    replace(steps, test, line, instr);
    Ok(())
}

// Writes what comes before the turns of a DO: the controls, and the store of the first value.
fn emit_first(
    marks: &[Mark],
    steps: &mut List<Step>,
    control: &Control,
    first: Ref,
) -> Result<(), NoMemory>
    ensures { OnOk result (steps.new ≡ steps.old ++ (controls_code marks.now (control_of control.now)
        ++ at_line control.now.line Doinit ∷ at_line control.now.line (set_instr first.site first.var) ∷ [])) }
{
    emit_controls(marks, steps, control)?;
    put(steps, control.line, Instr::Doinit)?;
    put(steps, control.line, set_instr(first.site, first.var))
}

// Writes the turns of a DO: the test, the body, and what raises the variable and goes back to the test.
#[cycle(statement)]
fn emit_turns(
    alloc: Global,
    marks: &[Mark],
    steps: &mut List<Step>,
    body: &[Stmt],
    control: &Control,
    again: Ref,
    bump: Ref,
) -> Result<(), NoMemory>
    ensures { OnOk result (steps.new ≡ steps.old
        ++ turns_code marks.now control.now.line again bump (stmt_code marks.now (stmts_of body.now))) }
{
    let line = control.line;
    let test = next_place(steps);
    put(steps, line, Instr::Dotest(0))?;
    emit_statements(alloc, marks, steps, body)?;
    put(steps, line, get_instr(marks, again.site, again.var))?;
    put(steps, line, Instr::Doadd)?;
    put(steps, line, set_instr(bump.site, bump.var))?;
    let to_test = jump_back(next_place(steps), test)?;
    put(steps, line, to_test)?;
    let instr = loop_test(test, next_place(steps))?;
    replace(steps, test, line, instr);
    Ok(())
}

// Writes the code of a DOALL.
#[cycle(statement)]
fn emit_doall(
    alloc: Global,
    marks: &[Mark],
    steps: &mut List<Step>,
    body: &[Stmt],
    control: &Control,
    number: u32,
) -> Result<(), NoMemory>
    ensures { OnOk result (steps.new ≡ steps.old
        ++ doall_code marks.now (control_of control.now) number (stmt_code marks.now (stmts_of body.now))) }
{
    let line = control.line;
    emit_controls(marks, steps, control)?;
    let place = next_place(steps);
    put(steps, line, Instr::Fork(number, 0))?;
    emit_statements(alloc, marks, steps, body)?;
    put(steps, line, Instr::Join)?;
    let instr = fork(number, place, next_place(steps))?;
    replace(steps, place, line, instr);
    Ok(())
}
