//! From a source to its resolved program.

ghost use Rattle.std.specs.Prelude.{map, Err, IfOk, IfErr};
ghost use Rattle.std.specs.Result.{result_map_both};
ghost use Rattle.cdc_tree.specs.Forms.{statement};
ghost use Rattle.cdc_tree.specs.Units.{unit};
ghost use Rattle.cdc_prog.specs.Apart.{IsApart};
ghost use Rattle.cdc_prog.specs.Input.{Input};
ghost use Rattle.cdc_prog.specs.Iterations.{KeepsPremises, HasDoallNumbers};
ghost use Rattle.cdc_prog.specs.Resolved.{HasNoCall};
ghost use Rattle.cdc_prog.specs.Translation.{program_of};
ghost use Rattle.cdc_prog.specs.Units.{process_of};
ghost use Rattle.cdc_code.specs.Room.{HasRoom};
ghost use Rattle.cdc_code.specs.Template.{HasCallNumbers};
ghost use Rattle.cdc_compile.specs.Source.{HasLines, HasStatements, HasBuiltUnits, IsChecked, IsProgramOf};

use crate::refusal::Refusal;
use crate::unbuilt::first_unbuilt;
use cdc_base::List;
use cdc_check::{CheckRefusal, check};
use cdc_nest::units;
use cdc_parse::statements;
use cdc_prog::{Kind, Program, limit};
use cdc_subtest::first_conflict;
use cdc_token::{Lines, logical_lines};
use cdc_tree::{ParseRefusal, Statement, UnitText};
use std::alloc::Global;

fn lines_of(alloc: Global, source: &[u8]) -> Result<Lines, Refusal>
    ensures lines { IfOk result (HasLines source.now) }
    ensures refused { IfErr result (λ refusal. IsProgramOf source.now (Err refusal)) }
{
    if source.len() as u64 > limit(Kind::Source) {
        return Err(Refusal::Check(CheckRefusal::TooMany(Kind::Source)));
    }
    Ok(logical_lines(alloc, source)?)
}

fn statements_of(alloc: Global, source: &[u8]) -> Result<List<Statement>, Refusal>
    ensures statements { IfOk result (λ found. HasStatements source.now (map statement found)) }
    ensures refused { IfErr result (λ refusal. IsProgramOf source.now (Err refusal)) }
{
    let lines = lines_of(alloc, source)?;
    Ok(statements(alloc, &lines)?)
}

fn units_of(alloc: Global, source: &[u8]) -> Result<List<UnitText>, Refusal>
    ensures units { IfOk result (λ found. HasBuiltUnits source.now (map unit found)) }
    ensures refused { IfErr result (λ refusal. IsProgramOf source.now (Err refusal)) }
{
    let statements = statements_of(alloc, source)?;
    let unbuilt = first_unbuilt(statements.as_slice());
    let units = units(alloc, statements)?;
    match unbuilt {
        None => Ok(units),
        Some(line) => Err(Refusal::Parse(ParseRefusal::NotAStatement(line))),
    }
}

// The program that the check accepts, before its DOALLs are tested.
fn checked_program(alloc: Global, source: &[u8]) -> Result<Program, Refusal>
    ensures checked { IfOk result (λ p. IsChecked source.now (program_of p)) }
    ensures refused { IfErr result (λ refusal. IsProgramOf source.now (Err refusal)) }
    ensures premises { IfOk result (λ p. KeepsPremises (program_of p)) }
    ensures calls { IfOk result (λ p. HasNoCall (program_of p)) }
    ensures doalls { IfOk result (λ p. HasDoallNumbers (program_of p)) }
{
    let units = units_of(alloc, source)?;
    Ok(check(alloc, &units)?)
}

/// The resolved program of a source.
///
/// # Errors
///
/// The first refusal: a source of more than 262,144 bytes; then those of its tokens, of its statements and of its units;
/// then `NotAStatement` at the least line of a SUBROUTINE or CALL, which are not built yet; then those of the check; then
/// `Conflict` with the first failing pair of the first DOALL that has one. `Memory` may come at any time.
pub fn program(alloc: Global, source: &[u8]) -> Result<Program, Refusal>
    ensures answer { IsProgramOf source.now (result_map_both program_of (λ refusal. refusal) result) }

    // What is accepted keeps what theorems on iterations take of a program, and has no CALL yet.
    ensures premises { IfOk result (λ p. KeepsPremises (program_of p)) }
    ensures calls { IfOk result (λ p. HasNoCall (program_of p)) }
    ensures doalls { IfOk result (λ p. HasDoallNumbers (program_of p)) }

    // The iterations of a DOALL do not meet, wherever one is reached, whatever the input is.
    ensures apart { IfOk result (λ p. (records : Input) → IsApart (process_of (program_of p) records)) }

    // A task of its code has room: no more than 64 parentheses are open at a place, and no more than 64 blocks.
    ensures room { IfOk result (λ p. HasRoom (program_of p)) }
    ensures numbered { IfOk result (λ p. HasCallNumbers (program_of p)) }
{
    let program = checked_program(alloc, source)?;
    match first_conflict(alloc, &program)? {
        None => Ok(program),
        Some((first, second)) => Err(Refusal::Conflict(first, second)),
    }
}
