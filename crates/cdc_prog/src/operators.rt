// What operators and loops compute, with the fault that a program sees.
ghost use Rattle.std.specs.Prelude.{◌≡◌};
ghost use Rattle.cdc_prog.specs.Value.{or_fault, truth, unary, binary, trips};

use crate::expr::{BinOp, UnOp};
use crate::program::FaultKind;
use cdc_num::{Arith, abs, add, div, mul, neg, rem, sub, trip_count};

// A result, or the fault that stands for its absence.
#[inline(always)]
fn faulting(answer: Result<i64, Arith>) -> Result<i64, FaultKind>
    ensures { result ≡ or_fault FaultKind.ZeroDivisor answer }
{
    match answer {
        Ok(value) => Ok(value),
        Err(Arith::Overflow) => Err(FaultKind::Overflow),
        Err(Arith::Zero) => Err(FaultKind::ZeroDivisor),
    }
}

/// What a relation or a connective gives: 1 for true, 0 for false.
#[inline(always)]
pub fn truth(holds: bool) -> i64
    ensures { result ≡ truth holds }
{
    if holds { 1 } else { 0 }
}

/// The value of an operator of one operand (ISO/IEC 1539:1991, sections 7.2 and 13.13.1).
///
/// # Errors
///
/// `Overflow` where the result is out of range.
#[inline(always)]
pub fn unary(op: UnOp, a: i64) -> Result<i64, FaultKind>
    ensures { result ≡ unary op a }
{
    match op {
        UnOp::Neg => faulting(neg(a)),
        UnOp::Abs => faulting(abs(a)),
        UnOp::Not => Ok(truth(a == 0)),
    }
}

/// The value of an operator of two operands (ISO/IEC 1539:1991, sections 7.2 and 13.13).
///
/// # Errors
///
/// `Overflow` where the result is out of range, `ZeroDivisor` where a division or MOD has the
/// divisor 0.
#[inline(always)]
pub fn binary(op: BinOp, a: i64, b: i64) -> Result<i64, FaultKind>
    ensures { result ≡ binary op a b }
{
    match op {
        BinOp::Add => faulting(add(a, b)),
        BinOp::Sub => faulting(sub(a, b)),
        BinOp::Mul => faulting(mul(a, b)),
        BinOp::Div => faulting(div(a, b)),
        BinOp::Mod => faulting(rem(a, b)),
        BinOp::Min => Ok(if a <= b { a } else { b }),
        BinOp::Max => Ok(if a <= b { b } else { a }),
        BinOp::Eq => Ok(truth(a == b)),
        BinOp::Ne => Ok(truth(a != b)),
        BinOp::Lt => Ok(truth(a < b)),
        BinOp::Le => Ok(truth(a <= b)),
        BinOp::Gt => Ok(truth(a > b)),
        BinOp::Ge => Ok(truth(a >= b)),
        BinOp::And => Ok(truth(a != 0 && b != 0)),
        BinOp::Or => Ok(truth(a != 0 || b != 0)),
    }
}

/// How often a loop is carried out (ISO/IEC 1539:1991, section 8.1.4.4.1).
///
/// # Errors
///
/// `ZeroStep` where the step is 0.
pub fn turns(from: i64, to: i64, by: i64) -> Result<u128, FaultKind>
    ensures { result ≡ trips from to by }
{
    match trip_count(from, to, by) {
        Ok(count) => Ok(count),
        Err(_) => Err(FaultKind::ZeroStep),
    }
}
