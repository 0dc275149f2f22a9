// The code of expressions and of the subscripts of targets.
ghost use Rattle.std.specs.Prelude.{◌≡◌, [], ◌∷◌, ◌++◌, OnOk};
ghost use Rattle.cdc_prog.specs.Translation.{expr_of, exprs_of, target_of, control_of};
ghost use Rattle.cdc_code.specs.Template.{unary_instr, binary_instr, expr_code, exprs_code, target_code, controls_code};

use crate::access::{get_instr, mark_of};
use crate::steps::put;
use cdc_base::{List, NoMemory};
use cdc_code::{Instr, Step};
use cdc_prog::{BinOp, Control, Expr, Mark, Target, UnOp};

/// The instruction of an operator of one operand.
pub fn unary_instr(op: UnOp) -> Instr
    ensures { result ≡ unary_instr op }
{
    match op {
        UnOp::Neg => Instr::Neg,
        UnOp::Abs => Instr::Abs,
        UnOp::Not => Instr::Not,
    }
}

/// The instruction of an operator of two operands.
pub fn binary_instr(op: BinOp) -> Instr
    ensures { result ≡ binary_instr op }
{
    match op {
        BinOp::Add => Instr::Add,
        BinOp::Sub => Instr::Sub,
        BinOp::Mul => Instr::Mul,
        BinOp::Div => Instr::Div,
        BinOp::Mod => Instr::Mod,
        BinOp::Min => Instr::Min,
        BinOp::Max => Instr::Max,
        BinOp::Eq => Instr::Eq,
        BinOp::Ne => Instr::Ne,
        BinOp::Lt => Instr::Lt,
        BinOp::Le => Instr::Le,
        BinOp::Gt => Instr::Gt,
        BinOp::Ge => Instr::Ge,
        BinOp::And => Instr::And,
        BinOp::Or => Instr::Or,
    }
}

/// Writes the code of an expression, which pushes its value.
///
/// # Errors
///
/// Want of memory.
#[cycle(expression)]
pub fn emit_expression(
    marks: &[Mark],
    steps: &mut List<Step>,
    line: u32,
    expression: &Expr,
) -> Result<(), NoMemory>
    ensures { OnOk result (steps.new ≡ steps.old ++ expr_code marks.now line (expr_of expression.now)) }
{
    match expression {
        Expr::Number(n) => put(steps, line, Instr::Const(*n)),
        Expr::Scalar(at) => put(steps, line, get_instr(marks, at.site, at.var)),
        Expr::Element(at, subs) => {
            emit_subscripts(marks, steps, line, subs.as_slice())?;
            put(steps, line, Instr::Index(at.var))?;
            let mark = mark_of(marks, at.site);
            put(steps, line, Instr::Loade(at.var, at.site, mark))
        }
        Expr::Un(op, operand) => {
            emit_expression(marks, steps, line, operand)?;
            put(steps, line, unary_instr(*op))
        }
        Expr::Bin(op, a, b) => {
            emit_expression(marks, steps, line, a)?;
            emit_expression(marks, steps, line, b)?;
            put(steps, line, binary_instr(*op))
        }
    }
}

/// Writes the code of subscripts, which pushes their values in order.
///
/// # Errors
///
/// Want of memory.
#[cycle(expression)]
pub fn emit_subscripts(
    marks: &[Mark],
    steps: &mut List<Step>,
    line: u32,
    subs: &[Expr],
) -> Result<(), NoMemory>
    ensures { OnOk result (steps.new ≡ steps.old ++ exprs_code marks.now line (exprs_of subs.now)) }
{
    for sub in subs {
        emit_expression(marks, steps, line, sub)?;
    }
    Ok(())
}

/// Writes what comes before the value that is stored: for an element its subscripts and its number, for a scalar nothing.
///
/// # Errors
///
/// Want of memory.
pub fn emit_location(
    marks: &[Mark],
    steps: &mut List<Step>,
    line: u32,
    target: &Target,
) -> Result<(), NoMemory>
    ensures { OnOk result (steps.new ≡ steps.old ++ target_code marks.now line (target_of target.now)) }
{
    let subs = target.subs.as_slice();
    if subs.is_empty() {
        return Ok(());
    }
    emit_subscripts(marks, steps, line, subs)?;
    put(steps, line, Instr::Index(target.at.var))
}

/// Writes the controls of a loop: its first value, limit and step.
///
/// # Errors
///
/// Want of memory.
pub fn emit_controls(
    marks: &[Mark],
    steps: &mut List<Step>,
    control: &Control,
) -> Result<(), NoMemory>
    ensures { OnOk result (steps.new ≡ steps.old ++ controls_code marks.now (control_of control.now)) }
{
    emit_expression(marks, steps, control.line, &control.from)?;
    emit_expression(marks, steps, control.line, &control.to)?;
    emit_expression(marks, steps, control.line, &control.by)
}
