// The points of expressions.
ghost use Rattle.std.specs.Prelude.{◌≡◌, [], OnOk, map};
ghost use Rattle.cdc_prog.specs.Translation.{expr_of, exprs_of, control_of, item_of, target_of, actual_of};
ghost use Rattle.cdc_path.specs.Courses.{at_var, expr_course, exprs_course, store_course, controls_course, items_course, reads_course, actuals_course};
ghost use Rattle.cdc_flow.specs.Built.{built};

use crate::builder::Builder;
use cdc_base::NoMemory;
use cdc_path::Point;
use cdc_prog::{Actual, Control, Expr, Item, Target, Var};

/// Adds the point of a scalar, if it lies in memory.
///
/// # Errors
///
/// Want of memory.
pub fn add_scalar(g: &mut Builder, var: Var, point: Point) -> Result<(), NoMemory>
    ensures { OnOk result (g.new ≡ built (at_var [] var point) g.old) }
{
    match var {
        Var::Slot(_) => Ok(()),
        Var::Object(_) | Var::Dummy(_) => g.point(point),
    }
}

/// Adds the points of an expression.
///
/// # Errors
///
/// Want of memory.
#[cycle(expression)]
pub fn add_expression(g: &mut Builder, e: &Expr) -> Result<(), NoMemory>
    ensures { OnOk result (g.new ≡ built (expr_course [] (expr_of e.now)) g.old) }
{
    match e {
        Expr::Number(_) => Ok(()),
        Expr::Scalar(at) => add_scalar(g, at.var, Point::Read(at.site)),
        Expr::Element(at, subs) => {
            add_expressions(g, subs.as_slice())?;
            g.point(Point::Read(at.site))
        }
        Expr::Un(_, a) => add_expression(g, a),
        Expr::Bin(_, a, b) => {
            add_expression(g, a)?;
            add_expression(g, b)
        }
    }
}

/// Adds the points of expressions in order.
///
/// # Errors
///
/// Want of memory.
#[cycle(expression)]
pub fn add_expressions(g: &mut Builder, es: &[Expr]) -> Result<(), NoMemory>
    ensures { OnOk result (g.new ≡ built (exprs_course [] (exprs_of es.now)) g.old) }
{
    for e in es {
        add_expression(g, e)?;
    }
    Ok(())
}

/// Adds the point of the store into a target.
///
/// # Errors
///
/// Want of memory.
pub fn add_store(g: &mut Builder, target: &Target) -> Result<(), NoMemory>
    ensures { OnOk result (g.new ≡ built (store_course [] target.now.at (exprs_of target.now.subs)) g.old) }
{
    let at = target.at;
    match target.subs.as_slice() {
        [] => add_scalar(g, at.var, Point::Write(at.site)),
        [_, ..] => g.point(Point::Write(at.site)),
    }
}

/// Adds the points of the controls of a loop.
///
/// # Errors
///
/// Want of memory.
pub fn add_controls(g: &mut Builder, control: &Control) -> Result<(), NoMemory>
    ensures { OnOk result (g.new ≡ built (controls_course [] (control_of control.now)) g.old) }
{
    add_expression(g, &control.from)?;
    add_expression(g, &control.to)?;
    add_expression(g, &control.by)
}

/// Adds the points of the items of a PRINT.
///
/// # Errors
///
/// Want of memory.
pub fn add_items(g: &mut Builder, items: &[Item]) -> Result<(), NoMemory>
    ensures { OnOk result (g.new ≡ built (items_course [] (map item_of items.now)) g.old) }
{
    for item in items {
        if let Item::Value(value) = item {
            add_expression(g, value)?;
        }
    }
    Ok(())
}

/// Adds the points of the targets of a READ.
///
/// # Errors
///
/// Want of memory.
pub fn add_targets(g: &mut Builder, targets: &[Target]) -> Result<(), NoMemory>
    ensures { OnOk result (g.new ≡ built (reads_course [] (map target_of targets.now)) g.old) }
{
    for target in targets {
        add_expressions(g, target.subs.as_slice())?;
        add_store(g, target)?;
    }
    Ok(())
}

/// Adds the points of the actual arguments of a CALL.
///
/// # Errors
///
/// Want of memory.
pub fn add_actuals(g: &mut Builder, actuals: &[Actual]) -> Result<(), NoMemory>
    ensures { OnOk result (g.new ≡ built (actuals_course [] (map actual_of actuals.now)) g.old) }
{
    for actual in actuals {
        if let Actual::Copy(at, value) = actual {
            add_expression(g, value)?;
            add_scalar(g, at.var, Point::Write(at.site))?;
        }
    }
    Ok(())
}
