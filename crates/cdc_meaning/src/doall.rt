// What a DOALL needs beside its statements: its iterations, and the slots of each.
ghost use Rattle.std.specs.Prelude.{◌≡◌, ◌<◌, ◌≤◌, pos, ◌+ℤ◌, ◌*ℤ◌, length, IfOk, IsTrue};
ghost use Rattle.cdc_prog.specs.Data.{put, zeros};
ghost use Rattle.cdc_prog.specs.Held.{store_of};
ghost use Rattle.cdc_prog.specs.Resolved.{ControlFits};
ghost use Rattle.cdc_prog.specs.Translation.{control_of, stmt_of, stmts_of};
ghost use Rattle.cdc_prog.specs.Trips.{HasIndexes};
ghost use Rattle.cdc_prog.specs.Value.{is_value};
ghost use Rattle.cdc_meaning.specs.Frames.{shapes_of, binding, IsPlaced};
ghost use Rattle.cdc_meaning.specs.Doall.{Forks, SlotsWithin};

use crate::expr::{at_line, value};
use crate::frame::Frame;
use cdc_prog::{Control, Fault, Stmt, index_of, iterations};

/// The iterations of a DOALL: how many, the index of the first, and the step.
#[derive(Clone, Copy)]
pub struct Fork {
    pub count: u32,
    pub from: i64,
    pub by: i64,
}

/// A DOALL begins: its controls are evaluated once, in order.
///
/// # Errors
///
/// The first fault, at the line of the loop; a step of 0 is one, and then more than `2^20` iterations.
pub fn begin_doall(
    frame: &Frame,
    words: &[i64],
    slots: &[i64],
    control: &Control,
) -> Result<Fork, Fault>
    requires placed { IsPlaced frame.now }
    requires room { length words.now ≡ frame.now.program.now.words }
    requires fits { ControlFits frame.now.program.now.objects (shapes_of frame.now) (length slots.now) (control_of control.now) }
    ensures forks { Forks (binding frame.now) (control_of control.now) slots.now (store_of words.now) result }
    ensures indexes { IfOk result (λ f. HasIndexes f.count f.from f.by) }
{
    let line = control.line;
    let from = value(frame, words, slots, line, &control.from)?;
    let to = value(frame, words, slots, line, &control.to)?;
    let by = value(frame, words, slots, line, &control.by)?;
    let count = at_line(iterations(from, to, by), line)?;
    Ok(Fork { count, from, by })
}

/// Begins iteration `k`, counted from 0: its index is in slot 0, and its private scalars are 0.
pub fn begin_iteration(lane: &mut [i64], fork: Fork, k: u32)
    requires some { 0 < length lane.old }
    requires index { IsTrue (is_value (fork.from +ℤ (pos k *ℤ fork.by))) }
    ensures { store_of lane.new ≡ put zeros 0 (fork.from +ℤ (pos k *ℤ fork.by)) }
{
    lane.fill(0);
    lane[0] = index_of(fork.from, fork.by, k);
}

// The greater of two numbers.
fn greater(a: u32, b: u32) -> u32
    ensures first { a ≤ result }
    ensures second { b ≤ result }
{
    if a < b { b } else { a }
}

// The greatest number of slots of a DOALL in a statement, 0 where there is none.
#[cycle(slots)]
fn most_slots_in(statement: &Stmt) -> u32
    ensures { SlotsWithin result (stmt_of statement.now) }
{
    match statement {
        Stmt::If { arms, other } => {
            let mut most = 0;
            for arm in arms.as_slice() {
                most = greater(most, most_slots(arm.body.as_slice()));
            }
            greater(most, most_slots(other.as_slice()))
        }
        Stmt::Do { body, .. } => most_slots(body.as_slice()),
        Stmt::Doall { slots, .. } => *slots,
        Stmt::Assign { .. } | Stmt::Call { .. } | Stmt::Print { .. } | Stmt::Read { .. } => 0,
    }
}

/// The greatest number of slots of a DOALL among statements, 0 where there is none.
#[cycle(slots)]
pub fn most_slots(statements: &[Stmt]) -> u32
    ensures { SlotsWithin result (stmts_of statements.now) }
{
    let mut most = 0;
    for statement in statements {
        most = greater(most, most_slots_in(statement));
    }
    most
}
