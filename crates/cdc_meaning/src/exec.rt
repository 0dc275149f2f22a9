// Statements.
ghost use Rattle.std.specs.Prelude.{◌≡◌, ◌<◌, length};
ghost use Rattle.cdc_prog.specs.Bodies.{HasOnly};
ghost use Rattle.cdc_prog.specs.Resolved.{StmtFits};
ghost use Rattle.cdc_meaning.specs.Loops.{HasCell, DoesTurns};
ghost use Rattle.cdc_meaning.specs.Doall.{DoesFork, SlotsWithin};
ghost use Rattle.cdc_prog.specs.Trips.{HasIndexes};
ghost use Rattle.cdc_prog.specs.Translation.{stmt_of, stmts_of, program_of};
ghost use Rattle.cdc_meaning.specs.Frames.{shapes_of, IsPlaced};
ghost use Rattle.cdc_meaning.specs.Carried.{state_of, states_of, DoesStmt, IsOther};

use crate::doall::{Fork, begin_doall, begin_iteration};
use crate::expr::computed;
use crate::frame::Frame;
use crate::print::{Page, print};
use crate::read::read;
use crate::steps::{Turns, assign, begin, raise};
use cdc_base::Sink;
use cdc_prog::{Stmt, Stop, Unread};

/// What is left of the input, and what was printed.
#[derive(Drop)]
pub struct Streams<'a> {
    pub unread: Unread<'a>,
    pub page: Page,
}

/// Carries out a statement that has no CALL. A DOALL takes the slots of its iterations in `lane`, one iteration after another.
/// An assignment is carried out in place.
///
/// # Errors
///
/// The first fault; a failure of the sink.
#[cycle(exec)]
#[inline(always)]
pub fn exec<K: Sink>(
    frame: &Frame,
    words: &mut [i64],
    slots: &mut [i64],
    lane: &mut [i64],
    streams: &mut Streams,
    out: &mut K,
    statement: &Stmt,
) -> Result<(), Stop>
    requires placed { IsPlaced frame.now }
    requires room { length words.old ≡ frame.now.program.now.words }
    requires fits { StmtFits (program_of frame.now.program.now) (λ u. 0) 0 (shapes_of frame.now) (length slots.old) (stmt_of statement.now) }
    requires calls { HasOnly (Unit {0}) (Unit {0}) ⊥ (stmt_of statement.now) }
    requires lane { SlotsWithin (length lane.old) (stmt_of statement.now) }
    ensures { DoesStmt frame.now (stmt_of statement.now) (state_of words.old slots.old streams.old (K.taken out.old) (K.faults out.old))
        result (state_of words.new slots.new streams.new (K.taken out.new) (K.faults out.new)) }
{
    match statement {
        Stmt::Assign {
            line,
            target,
            value,
        } => {
            assign(frame, words, slots, *line, target, value)?;
            Ok(())
        }
        _ => exec_other(frame, words, slots, lane, streams, out, statement),
    }
}

// Carries out a statement that is no assignment.
#[cycle(exec)]
#[inline(never)]
fn exec_other<K: Sink>(
    frame: &Frame,
    words: &mut [i64],
    slots: &mut [i64],
    lane: &mut [i64],
    streams: &mut Streams,
    out: &mut K,
    statement: &Stmt,
) -> Result<(), Stop>
    requires placed { IsPlaced frame.now }
    requires room { length words.old ≡ frame.now.program.now.words }
    requires fits { StmtFits (program_of frame.now.program.now) (λ u. 0) 0 (shapes_of frame.now) (length slots.old) (stmt_of statement.now) }
    requires calls { HasOnly (Unit {0}) (Unit {0}) ⊥ (stmt_of statement.now) }
    requires lane { SlotsWithin (length lane.old) (stmt_of statement.now) }
    requires other { IsOther statement.now }
    ensures { DoesStmt frame.now (stmt_of statement.now) (state_of words.old slots.old streams.old (K.taken out.old) (K.faults out.old))
        result (state_of words.new slots.new streams.new (K.taken out.new) (K.faults out.new)) }
{
    match statement {
        Stmt::If { arms, other } => {
            for arm in arms.as_slice() {
                let holds = computed(frame, words, slots, arm.line, &arm.cond)?;
                if holds != 0 {
                    return exec_all(frame, words, slots, lane, streams, out, arm.body.as_slice());
                }
            }
            exec_all(frame, words, slots, lane, streams, out, other.as_slice())
        }
        Stmt::Do {
            control,
            first,
            body,
            again,
            bump,
        } => {
            let turns = begin(frame, words, slots, control, *first, *again, *bump)?;
            repeat(
                frame,
                words,
                slots,
                lane,
                streams,
                out,
                body.as_slice(),
                turns,
            )
        }
        Stmt::Print { line, items } => print(
            frame,
            words,
            slots,
            out,
            &mut streams.page,
            *line,
            items.as_slice(),
        ),
        Stmt::Read { line, targets } => {
            read(
                frame,
                words,
                slots,
                &mut streams.unread,
                *line,
                targets.as_slice(),
            )?;
            Ok(())
        }
        Stmt::Doall {
            control,
            slots: own,
            body,
            ..
        } => {
            let fork = begin_doall(frame, words, slots, control)?;
            let (lane, others) = lane.split_at_mut(*own as usize);
            iterate(
                frame,
                words,
                lane,
                others,
                streams,
                out,
                body.as_slice(),
                fork,
            )
        }
        Stmt::Assign { .. } | Stmt::Call { .. } => unreachable!(),
    }
}

/// Carries out statements in order.
///
/// # Errors
///
/// The first fault; a failure of the sink.
#[cycle(exec)]
#[inline(always)]
pub fn exec_all<K: Sink>(
    frame: &Frame,
    words: &mut [i64],
    slots: &mut [i64],
    lane: &mut [i64],
    streams: &mut Streams,
    out: &mut K,
    statements: &[Stmt],
) -> Result<(), Stop>
    requires placed { IsPlaced frame.now }
    requires room { length words.old ≡ frame.now.program.now.words }
    requires fits { StmtFits (program_of frame.now.program.now) (λ u. 0) 0 (shapes_of frame.now) (length slots.old) (stmts_of statements.now) }
    requires calls { HasOnly (Unit {0}) (Unit {0}) ⊥ (stmts_of statements.now) }
    requires lane { SlotsWithin (length lane.old) (stmts_of statements.now) }
    ensures { DoesStmt frame.now (stmts_of statements.now) (state_of words.old slots.old streams.old (K.taken out.old) (K.faults out.old))
        result (state_of words.new slots.new streams.new (K.taken out.new) (K.faults out.new)) }
{
    for statement in statements {
        exec(frame, words, slots, lane, streams, out, statement)?;
    }
    Ok(())
}

// Carries out the turns of a DO loop.
#[cycle(exec)]
#[inline(never)]
fn repeat<K: Sink>(
    frame: &Frame,
    words: &mut [i64],
    slots: &mut [i64],
    lane: &mut [i64],
    streams: &mut Streams,
    out: &mut K,
    body: &[Stmt],
    turns: Turns,
) -> Result<(), Stop>
    requires placed { IsPlaced frame.now }
    requires room { length words.old ≡ frame.now.program.now.words }
    requires fits { StmtFits (program_of frame.now.program.now) (λ u. 0) 0 (shapes_of frame.now) (length slots.old) (stmts_of body.now) }
    requires calls { HasOnly (Unit {0}) (Unit {0}) ⊥ (stmts_of body.now) }
    requires lane { SlotsWithin (length lane.old) (stmts_of body.now) }
    requires cell { HasCell frame.now (length slots.old) turns }
    ensures { DoesTurns frame.now turns (stmts_of body.now) (state_of words.old slots.old streams.old (K.taken out.old) (K.faults out.old))
        result (state_of words.new slots.new streams.new (K.taken out.new) (K.faults out.new)) }
{
    for _ in 0..turns.count {
        exec_all(frame, words, slots, lane, streams, out, body)?;
        raise(frame, words, slots, turns)?;
    }
    Ok(())
}

// Carries out the iterations of a DOALL in order, up to the first fault. No iteration has a DOALL, so none needs the others.
#[cycle(exec)]
fn iterate<K: Sink>(
    frame: &Frame,
    words: &mut [i64],
    lane: &mut [i64],
    others: &mut [i64],
    streams: &mut Streams,
    out: &mut K,
    body: &[Stmt],
    fork: Fork,
) -> Result<(), Stop>
    requires placed { IsPlaced frame.now }
    requires room { length words.old ≡ frame.now.program.now.words }
    requires some { 0 < length lane.old }
    requires fits { StmtFits (program_of frame.now.program.now) (λ u. 0) 0 (shapes_of frame.now) (length lane.old) (stmts_of body.now) }
    requires alone { HasOnly ⊥ ⊥ ⊥ (stmts_of body.now) }
    requires indexes { HasIndexes fork.count fork.from fork.by }
    ensures { DoesFork frame.now fork (stmts_of body.now) (states_of words.old streams.old (K.taken out.old) (K.faults out.old))
        result (states_of words.new streams.new (K.taken out.new) (K.faults out.new)) }
{
    for k in 0..fork.count {
        begin_iteration(lane, fork, k);
        exec_all(frame, words, lane, others, streams, out, body)?;
    }
    Ok(())
}
