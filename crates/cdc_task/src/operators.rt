//! Operators, on the top of the stack.

ghost use Rattle.std.specs.Prelude.{◌≡◌, ◌<◌, ◌^◌, ℕ};
ghost use Rattle.cdc_prog.specs.declared.expr.BinOp.TheVariants.{Add as Plus};
ghost use Rattle.cdc_prog.specs.Value.{binary};
ghost use Rattle.cdc_prog.specs.Input.{Input};
ghost use Rattle.cdc_code.specs.Rows.{unary_act, binary_act};
ghost use Rattle.cdc_task.specs.Steps.{FitsIn, EndsOn, IsOperation, IsRare, does};

use crate::end::StepEnd;
use crate::task::Task;
use cdc_base::List;
use cdc_code::{Code, Instr, Step};
use cdc_num::{Arith, add};
use cdc_prog::{BinOp, FaultKind, UnOp, binary, unary};

// The sum of two numbers, or the fault that a program sees.
#[inline(always)]
pub fn sum(a: i64, b: i64) -> Result<i64, FaultKind>
    ensures { result ≡ binary Plus a b }
{
    match add(a, b) {
        Ok(value) => Ok(value),
        Err(Arith::Overflow) => Err(FaultKind::Overflow),
        Err(Arith::Zero) => Err(FaultKind::ZeroDivisor),
    }
}

impl Task {
    // An operator of two operands, or another instruction that few statements have.
    #[inline(never)]
    pub(crate) fn operate(&mut self, code: &Code, records: &[List<i64>], step: &Step) -> StepEnd
        requires place { self.old.pc < 2 ^ 63 }
        requires kind { IsOperation step.now.instr }
        requires fit { (words : ℕ) × FitsIn words records.now (does code.now step.now.instr step.now.line) self.old }
        ensures { EndsOn records.now (does code.now step.now.instr step.now.line) self.old result self.new }
    {
        let line = step.line;
        match step.instr {
            Instr::Add => self.apply_binary(BinOp::Add, line),
            Instr::Sub => self.apply_binary(BinOp::Sub, line),
            Instr::Mul => self.apply_binary(BinOp::Mul, line),
            Instr::Div => self.apply_binary(BinOp::Div, line),
            Instr::Mod => self.apply_binary(BinOp::Mod, line),
            Instr::Min => self.apply_binary(BinOp::Min, line),
            Instr::Max => self.apply_binary(BinOp::Max, line),
            Instr::Eq => self.apply_binary(BinOp::Eq, line),
            Instr::Ne => self.apply_binary(BinOp::Ne, line),
            Instr::Lt => self.apply_binary(BinOp::Lt, line),
            Instr::Le => self.apply_binary(BinOp::Le, line),
            Instr::Gt => self.apply_binary(BinOp::Gt, line),
            Instr::Ge => self.apply_binary(BinOp::Ge, line),
            Instr::And => self.apply_binary(BinOp::And, line),
            Instr::Or => self.apply_binary(BinOp::Or, line),
            _ => self.go_on_rarely(code, records, step.instr, line),
        }
    }

    // The sum, which most statements have among the operators.
    #[inline(always)]
    pub(crate) fn add(&mut self, line: u32) -> StepEnd
        requires place { self.old.pc < 2 ^ 63 }
        requires fit { (words : ℕ) × (records : Input) × FitsIn words records (binary_act Plus line) self.old }
        ensures { (records : Input) → EndsOn records (binary_act Plus line) self.old result self.new }
    {
        let Some(y) = self.pop() else {
            unreachable!();
        };
        let Some(x) = self.pop() else {
            unreachable!();
        };
        match sum(x, y) {
            Ok(value) => {
                self.push(value);
                self.advance();
                StepEnd::Went
            }
            Err(kind) => StepEnd::Faulted(kind, line),
        }
    }

    // An operator of one operand.
    #[inline(never)]
    pub(crate) fn apply_unary(&mut self, op: UnOp, line: u32) -> StepEnd
        requires place { self.old.pc < 2 ^ 63 }
        requires fit { (words : ℕ) × (records : Input) × FitsIn words records (unary_act op line) self.old }
        ensures { (records : Input) → EndsOn records (unary_act op line) self.old result self.new }
    {
        let Some(x) = self.pop() else {
            unreachable!();
        };
        match unary(op, x) {
            Ok(value) => {
                self.push(value);
                self.advance();
                StepEnd::Went
            }
            Err(kind) => StepEnd::Faulted(kind, line),
        }
    }

    // An operator of two operands.
    #[inline(always)]
    fn apply_binary(&mut self, op: BinOp, line: u32) -> StepEnd
        requires place { self.old.pc < 2 ^ 63 }
        requires fit { (words : ℕ) × (records : Input) × FitsIn words records (binary_act op line) self.old }
        ensures { (records : Input) → EndsOn records (binary_act op line) self.old result self.new }
    {
        let Some(y) = self.pop() else {
            unreachable!();
        };
        let Some(x) = self.pop() else {
            unreachable!();
        };
        match binary(op, x, y) {
            Ok(value) => {
                self.push(value);
                self.advance();
                StepEnd::Went
            }
            Err(kind) => StepEnd::Faulted(kind, line),
        }
    }
}
