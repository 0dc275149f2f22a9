// Expressions: their values, where none of their operations faults.
ghost use Rattle.std.specs.Prelude.{◌≡◌, ◌<◌, length, IfOk, IfSome};
ghost use Rattle.cdc_prog.specs.Data.{size_of, dims_of};
ghost use Rattle.cdc_prog.specs.Held.{store_of};
ghost use Rattle.cdc_prog.specs.Plain.{Element};
ghost use Rattle.cdc_prog.specs.Resolved.{ExprFits, TargetFits};
ghost use Rattle.cdc_prog.specs.Translation.{expr_of, exprs_of, target_of};
ghost use Rattle.cdc_meaning.specs.Frames.{shapes_of, binding, IsPlaced, IsElement};
ghost use Rattle.cdc_meaning.specs.Cells.{IsWithin};
ghost use Rattle.cdc_meaning.specs.Evaluates.{IsAt, Notes, Gives, GivesNumber, Values, Locates};

use crate::cell::{Cell, fetch, scalar};
use crate::folded::Folded;
use crate::frame::Frame;
use cdc_prog::{Expr, Fault, FaultKind, Ref, Target, Var, binary, unary};

/// The value of an expression (ISO/IEC 1539:1991, section 7); a number and a scalar are read in place.
///
/// # Errors
///
/// The first fault, at the line.
#[inline(always)]
pub fn value(frame: &Frame, words: &[i64], slots: &[i64], line: u32, e: &Expr) -> Result<i64, Fault>
    requires placed { IsPlaced frame.now }
    requires room { length words.now ≡ frame.now.program.now.words }
    requires fits { ExprFits frame.now.program.now.objects (shapes_of frame.now) (length slots.now) (expr_of e.now) }
    ensures { Values (binding frame.now) line (expr_of e.now) slots.now (store_of words.now) result }
{
    let mut kind = FaultKind::Overflow;
    match operand(frame, words, slots, e, &mut kind) {
        Some(value) => Ok(value),
        None => Err(fault(kind, line)),
    }
}

/// The same value, for expressions that mostly have operators.
///
/// # Errors
///
/// The first fault, at the line.
#[inline(always)]
pub fn computed(
    frame: &Frame,
    words: &[i64],
    slots: &[i64],
    line: u32,
    e: &Expr,
) -> Result<i64, Fault>
    requires placed { IsPlaced frame.now }
    requires room { length words.now ≡ frame.now.program.now.words }
    requires fits { ExprFits frame.now.program.now.objects (shapes_of frame.now) (length slots.now) (expr_of e.now) }
    ensures { Values (binding frame.now) line (expr_of e.now) slots.now (store_of words.now) result }
{
    let mut kind = FaultKind::Overflow;
    match evaluate(frame, words, slots, e, &mut kind) {
        Some(value) => Ok(value),
        None => Err(fault(kind, line)),
    }
}

// A fault, which is made apart, so that what is no fault stays in registers.
#[cold]
#[inline(never)]
fn fault(kind: FaultKind, line: u32) -> Fault
    ensures { result ≡ record { kind = kind; line = line } }
{
    Fault { kind, line }
}

// The value of an expression, which stays in registers; where it faults there is none, and the kind of the fault is kept.
#[cycle(evaluate)]
fn evaluate(
    frame: &Frame,
    words: &[i64],
    slots: &[i64],
    e: &Expr,
    kind: &mut FaultKind,
) -> Option<i64>
    requires placed { IsPlaced frame.now }
    requires room { length words.now ≡ frame.now.program.now.words }
    requires fits { ExprFits frame.now.program.now.objects (shapes_of frame.now) (length slots.now) (expr_of e.now) }
    ensures { Gives (binding frame.now) (expr_of e.now) slots.now (store_of words.now) result kind.new }
{
    match e {
        Expr::Number(n) => Some(*n),
        Expr::Scalar(at) => Some(fetch(words, slots, scalar(frame, slots, at.var))),
        Expr::Element(at, subs) => element(frame, words, slots, *at, subs.as_slice(), kind),
        Expr::Un(op, a) => {
            let x = operand(frame, words, slots, a, kind)?;
            noted(unary(*op, x), kind)
        }
        Expr::Bin(op, a, b) => {
            let x = operand(frame, words, slots, a, kind)?;
            let y = operand(frame, words, slots, b, kind)?;
            noted(binary(*op, x, y), kind)
        }
    }
}

// The value of an operand; a number and a scalar are read in place, an element by the shortest way.
#[cycle(evaluate)]
#[inline(always)]
fn operand(
    frame: &Frame,
    words: &[i64],
    slots: &[i64],
    e: &Expr,
    kind: &mut FaultKind,
) -> Option<i64>
    requires placed { IsPlaced frame.now }
    requires room { length words.now ≡ frame.now.program.now.words }
    requires fits { ExprFits frame.now.program.now.objects (shapes_of frame.now) (length slots.now) (expr_of e.now) }
    ensures { Gives (binding frame.now) (expr_of e.now) slots.now (store_of words.now) result kind.new }
{
    match e {
        Expr::Number(n) => Some(*n),
        Expr::Scalar(at) => Some(fetch(words, slots, scalar(frame, slots, at.var))),
        Expr::Element(at, subs) => element(frame, words, slots, *at, subs.as_slice(), kind),
        _ => evaluate(frame, words, slots, e, kind),
    }
}

// The value of an array element.
#[cycle(evaluate)]
#[inline(never)]
fn element(
    frame: &Frame,
    words: &[i64],
    slots: &[i64],
    at: Ref,
    subs: &[Expr],
    kind: &mut FaultKind,
) -> Option<i64>
    requires placed { IsPlaced frame.now }
    requires room { length words.now ≡ frame.now.program.now.words }
    requires element { IsElement frame.now (length slots.now) at.var (exprs_of subs.now) }
    ensures { Gives (binding frame.now) (Element at (exprs_of subs.now)) slots.now (store_of words.now) result kind.new }
{
    let n = number(frame, words, slots, at.var, subs, kind)?;
    Some(words[frame.word(at.var, n) as usize])
}

// What was got; the kind of a fault is kept.
#[inline(always)]
fn noted<T>(got: Result<T, FaultKind>, kind: &mut FaultKind) -> Option<T>
    ensures { Notes got result kind.new }
{
    match got {
        Ok(value) => Some(value),
        Err(fault) => {
            *kind = fault;
            None
        }
    }
}

/// Puts a line to a fault.
pub fn at_line<T>(answer: Result<T, FaultKind>, line: u32) -> Result<T, Fault>
    ensures { IsAt line answer result }
{
    match answer {
        Ok(value) => Ok(value),
        Err(kind) => Err(fault(kind, line)),
    }
}

// The number of an array element, from 0: all subscripts are evaluated in order, and then the
// bounds are tested (ISO/IEC 1539:1991, section 6.2.2); none where one of these faults.
#[cycle(evaluate)]
#[inline(always)]
fn number(
    frame: &Frame,
    words: &[i64],
    slots: &[i64],
    var: Var,
    subs: &[Expr],
    kind: &mut FaultKind,
) -> Option<u32>
    requires placed { IsPlaced frame.now }
    requires room { length words.now ≡ frame.now.program.now.words }
    requires element { IsElement frame.now (length slots.now) var (exprs_of subs.now) }
    ensures number { GivesNumber (binding frame.now) (dims_of (binding frame.now) var) (exprs_of subs.now) slots.now (store_of words.now) result kind.new }
    ensures within { IfSome result (λ n. n < size_of (dims_of (binding frame.now) var)) }
{
    let dims = frame.dims(var);
    let mut folded = Folded {
        number: 0,
        stride: 1,
        is_inside: true,
    };
    for (k, e) in subs.iter().enumerate() {
        let sub = operand(frame, words, slots, e, kind)?;
        folded = folded.with(dims[k], sub);
    }
    if folded.is_inside {
        Some(folded.number)
    } else {
        *kind = FaultKind::Subscript;
        None
    }
}

/// The cell of a target (ISO/IEC 1539:1991, section 7.5.1): its subscripts are evaluated, and the
/// bounds tested.
///
/// # Errors
///
/// The first fault, at the line.
#[inline(always)]
pub fn located(
    frame: &Frame,
    words: &[i64],
    slots: &[i64],
    line: u32,
    target: &Target,
) -> Result<Cell, Fault>
    requires placed { IsPlaced frame.now }
    requires room { length words.now ≡ frame.now.program.now.words }
    requires fits { TargetFits frame.now.program.now.objects (shapes_of frame.now) (length slots.now) (target_of target.now) }
    ensures cell { Locates (binding frame.now) line (target_of target.now) slots.now (store_of words.now) result }
    ensures within { IfOk result (IsWithin (length words.now) (length slots.now)) }
{
    let var = target.at.var;
    let subs = target.subs.as_slice();
    if subs.is_empty() {
        return Ok(scalar(frame, slots, var));
    }
    let mut kind = FaultKind::Overflow;
    match number(frame, words, slots, var, subs, &mut kind) {
        Some(n) => Ok(Cell::Word(frame.word(var, n))),
        None => Err(fault(kind, line)),
    }
}
