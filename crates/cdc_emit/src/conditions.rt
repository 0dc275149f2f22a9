// What an IF needs beside the code of its parts: which of them have code, and the jumps from its arms to its end.
ghost use Rattle.std.specs.Prelude.{◌≡◌, ◌+◌, ◌<◌, ◌++◌, OnOk, length, drop};
ghost use Rattle.cdc_prog.specs.Plain.{Stmt as PlainStmt};
ghost use Rattle.cdc_prog.specs.Translation.{stmt_of, stmts_of, arms_of};
ghost use Rattle.cdc_emit.specs.Parts.{has_code, pending_code, pending_at, AreWithin, closed};

use crate::jumps::jump;
use crate::steps::{next_place, put, replace};
use cdc_base::{List, NoMemory};
use cdc_code::{Instr, Step};
use cdc_prog::{Arm, Stmt};

/// A jump to the end of an IF whose operand is still to be written.
#[derive(Clone, Copy, Debug, PartialEq, Eq)]
pub struct Pending {
    pub place: usize,
    pub line: u32,
}

/// Whether statements have code.
#[cycle(has_code)]
pub fn has_code(statements: &[Stmt]) -> bool
    ensures { result ≡ has_code (stmts_of statements.now) }
{
    for statement in statements {
        if is_coded(statement) {
            return true;
        }
    }
    false
}

// Whether a statement has code.
#[cycle(has_code)]
fn is_coded(statement: &Stmt) -> bool
    ensures { result ≡ has_code (stmt_of statement.now) }
{
    match statement {
        Stmt::If { arms, other } => {
            if arms.as_slice().is_empty() {
                return has_code(other.as_slice());
            }
            true
        }
        Stmt::Assign { .. }
        | Stmt::Do { .. }
        | Stmt::Doall { .. }
        | Stmt::Call { .. }
        | Stmt::Print { .. }
        | Stmt::Read { .. } => true,
    }
}

/// Whether code follows the arm of this number, where it is said whether the other part has code.
pub fn is_followed(arms: &[Arm], number: usize, other_has_code: bool) -> bool
    requires { number < length arms.now }
    ensures { (other : PlainStmt) → other_has_code ≡ has_code other
        → result ≡ has_code (arms_of (drop (number + 1) arms.now) other) }
{
    if number + 1 < arms.len() {
        return true;
    }
    other_has_code
}

/// Writes the jump from the end of an arm, its operand left open, where code follows.
///
/// # Errors
///
/// Want of memory.
pub fn emit_leave(
    steps: &mut List<Step>,
    ends: &mut Vec<Pending>,
    line: u32,
    is_followed: bool,
) -> Result<(), NoMemory>
    ensures steps { OnOk result (steps.new ≡ steps.old ++ pending_code line is_followed) }
    ensures ends { OnOk result (ends.new.items ≡ ends.old.items ++ pending_at (length steps.old) line is_followed) }
{
    if is_followed {
        let place = next_place(steps);
        ends.push(Pending { place, line })?;
        put(steps, line, Instr::Jump(0))?;
    }
    Ok(())
}

/// Writes the operands of jumps to the end of the code.
///
/// # Errors
///
/// Want of memory.
pub fn close(steps: &mut List<Step>, mut ends: Vec<Pending>) -> Result<(), NoMemory>
    requires { AreWithin steps.old ends.items }
    ensures { OnOk result (steps.new ≡ closed ends.items steps.old) }
{
    let end = next_place(steps);
    while let Some(pending) = ends.pop() {
        let instr = jump(pending.place, end)?;
        replace(steps, pending.place, pending.line, instr);
    }
    Ok(())
}
