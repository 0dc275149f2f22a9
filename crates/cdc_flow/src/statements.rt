// The points of statements. CALLs are counted, since a CALL has its number in the program.
ghost use Rattle.std.specs.Prelude.{◌≡◌, suc, ◌+◌, [], OnOk, IfOk};
ghost use Rattle.cdc_prog.specs.Plain.{Stmt as PlainStmt};
ghost use Rattle.cdc_prog.specs.Numbered.{calls_in, calls_numbered};
ghost use Rattle.cdc_prog.specs.Translation.{expr_of, stmt_of, stmts_of, arms_of};
ghost use Rattle.cdc_path.specs.Courses.{expr_course, unit_course};
ghost use Rattle.cdc_path.specs.declared.point.Point.TheVariants.{Call};
ghost use Rattle.cdc_flow.specs.Built.{built, pointed, met, IsArmed};

use crate::builder::Builder;
use crate::calls::count_call;
use crate::expressions::{
    add_actuals, add_controls, add_expression, add_expressions, add_items, add_scalar, add_store,
    add_targets,
};
use cdc_base::NoMemory;
use cdc_path::Point;
use cdc_prog::{Arm, Stmt};
use std::alloc::Global;

/// Adds the points of statements in order, where `calls` CALLs come before them.
///
/// # Errors
///
/// Want of memory.
#[cycle(statement)]
pub fn add_statements(
    alloc: Global,
    g: &mut Builder,
    calls: &mut u32,
    statements: &[Stmt],
) -> Result<(), NoMemory>
    ensures graph { OnOk result (g.new ≡ built (unit_course [] (calls_numbered calls.old (stmts_of statements.now))) g.old) }
    ensures calls { OnOk result (calls.new ≡ calls.old + calls_in (stmts_of statements.now)) }
{
    for statement in statements {
        add_statement(alloc, g, calls, statement)?;
    }
    Ok(())
}

// Adds the points of a statement.
#[cycle(statement)]
fn add_statement(
    alloc: Global,
    g: &mut Builder,
    calls: &mut u32,
    statement: &Stmt,
) -> Result<(), NoMemory>
    ensures graph { OnOk result (g.new ≡ built (unit_course [] (calls_numbered calls.old (stmt_of statement.now))) g.old) }
    ensures calls { OnOk result (calls.new ≡ calls.old + calls_in (stmt_of statement.now)) }
{
    match statement {
        Stmt::Assign { target, value, .. } => {
            add_expressions(g, target.subs.as_slice())?;
            add_expression(g, value)?;
            add_store(g, target)
        }
        Stmt::If { arms, other } => {
            let ends = add_arms(alloc, g, calls, arms.as_slice())?;
            add_statements(alloc, g, calls, other.as_slice())?;
            g.meet_all(ends)
        }
        Stmt::Do {
            control,
            first,
            body,
            again,
            bump,
        } => {
            add_controls(g, control)?;
            add_scalar(g, first.var, Point::Write(first.site))?;
            g.point(Point::Plain)?;
            let head = g.at;
            add_statements(alloc, g, calls, body.as_slice())?;
            add_scalar(g, again.var, Point::Read(again.site))?;
            add_scalar(g, bump.var, Point::Write(bump.site))?;
            let end = g.at;
            g.link(end, head)?;
            g.go(head);
            Ok(())
        }
        Stmt::Doall {
            control,
            number,
            body,
            ..
        } => {
            add_controls(g, control)?;
            g.point(Point::Entry(*number))?;
            let entry = g.at;
            add_statements(alloc, g, calls, body.as_slice())?;
            let end = g.at;
            g.go(entry);
            g.meet(end)?;
            g.point(Point::Exit(*number))
        }
        Stmt::Call { actuals, .. } => {
            add_actuals(g, actuals.as_slice())?;
            add_call(g, calls)
        }
        Stmt::Print { items, .. } => add_items(g, items.as_slice()),
        Stmt::Read { targets, .. } => add_targets(g, targets.as_slice()),
    }
}

// Adds the point of a CALL, and counts it.
fn add_call(g: &mut Builder, calls: &mut u32) -> Result<(), NoMemory>
    ensures graph { OnOk result (g.new ≡ pointed (Call (suc calls.old)) g.old) }
    ensures calls { OnOk result (calls.new ≡ calls.old + 1) }
{
    count_call(calls)?;
    g.point(Point::Call(*calls))
}

// Adds the points of the arms of an IF, and gives where they end.
#[cycle(statement)]
fn add_arms(
    alloc: Global,
    g: &mut Builder,
    calls: &mut u32,
    arms: &[Arm],
) -> Result<Vec<u32>, NoMemory>
    ensures graph { IfOk result (λ ends. (other : PlainStmt) → met ends.items (built (unit_course [] (calls_numbered calls.new other)) g.new)
        ≡ built (unit_course [] (calls_numbered calls.old (arms_of arms.now other))) g.old) }
    ensures calls { OnOk result ((other : PlainStmt) → calls.new + calls_in other ≡ calls.old + calls_in (arms_of arms.now other)) }
{
    let mut ends = Vec::new(alloc);
    for arm in arms {
        let end = add_arm(alloc, g, calls, arm)?;
        ends.push(end)?;
    }
    Ok(ends)
}

// Adds the points of an arm, gives where it ends, and goes on after its condition.
#[cycle(statement)]
fn add_arm(alloc: Global, g: &mut Builder, calls: &mut u32, arm: &Arm) -> Result<u32, NoMemory>
    ensures graph { IfOk result (λ end. IsArmed (expr_course [] (expr_of arm.now.cond)) (unit_course [] (calls_numbered calls.old (stmts_of arm.now.body))) g.old g.new end) }
    ensures calls { OnOk result (calls.new ≡ calls.old + calls_in (stmts_of arm.now.body)) }
{
    add_expression(g, &arm.cond)?;
    let test = g.at;
    add_statements(alloc, g, calls, arm.body.as_slice())?;
    let end = g.at;
    g.go(test);
    Ok(end)
}
