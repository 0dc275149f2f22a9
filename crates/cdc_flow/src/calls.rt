// How many CALLs statements have.
ghost use Rattle.std.specs.Prelude.{◌≡◌, ◌+◌, IfOk, OnOk, map};
ghost use Rattle.cdc_prog.specs.Plain.{Stmt as PlainStmt};
ghost use Rattle.cdc_prog.specs.Numbered.{calls_in, calls_in_units};
ghost use Rattle.cdc_prog.specs.Translation.{stmt_of, stmts_of, arms_of, unit_of};

use cdc_base::NoMemory;
use cdc_prog::{Arm, Stmt, Unit};

/// Counts one CALL.
///
/// # Errors
///
/// Want of memory where the number does not fit 32 bits: that many CALLs need more memory than there is.
pub fn count_call(calls: &mut u32) -> Result<(), NoMemory>
    ensures { OnOk result (calls.new ≡ calls.old + 1) }
{
    if *calls == u32::MAX {
        return Err(NoMemory);
    }
    *calls += 1;
    Ok(())
}

/// How many CALLs units have.
///
/// # Errors
///
/// Want of memory.
pub fn count_units(units: &[Unit]) -> Result<u32, NoMemory>
    ensures { IfOk result (λ n. n ≡ calls_in_units (map unit_of units.now)) }
{
    let mut calls = 0;
    for unit in units {
        count_statements(&mut calls, unit.body.as_slice())?;
    }
    Ok(calls)
}

#[cycle(count)]
fn count_statements(calls: &mut u32, statements: &[Stmt]) -> Result<(), NoMemory>
    ensures { OnOk result (calls.new ≡ calls.old + calls_in (stmts_of statements.now)) }
{
    for statement in statements {
        count_statement(calls, statement)?;
    }
    Ok(())
}

#[cycle(count)]
fn count_statement(calls: &mut u32, statement: &Stmt) -> Result<(), NoMemory>
    ensures { OnOk result (calls.new ≡ calls.old + calls_in (stmt_of statement.now)) }
{
    match statement {
        Stmt::If { arms, other } => {
            count_arms(calls, arms.as_slice())?;
            count_statements(calls, other.as_slice())
        }
        Stmt::Do { body, .. } | Stmt::Doall { body, .. } => {
            count_statements(calls, body.as_slice())
        }
        Stmt::Call { .. } => count_call(calls),
        Stmt::Assign { .. } | Stmt::Print { .. } | Stmt::Read { .. } => Ok(()),
    }
}

#[cycle(count)]
fn count_arms(calls: &mut u32, arms: &[Arm]) -> Result<(), NoMemory>
    ensures { OnOk result ((other : PlainStmt) → calls.new + calls_in other ≡ calls.old + calls_in (arms_of arms.now other)) }
{
    for arm in arms {
        count_statements(calls, arm.body.as_slice())?;
    }
    Ok(())
}
