//! Units and blocks, one statement after another.

ghost use Rattle.std.specs.Prelude.{◌≡◌, ◌≤◌, map, Some};
ghost use Rattle.cdc_tree.specs.Units.{unit};
ghost use Rattle.cdc_tree.specs.Order.{InOrder};
ghost use Rattle.cdc_nest.specs.Units.{AreNested};
ghost use Rattle.cdc_tree.specs.Forms as f;
ghost use Rattle.cdc_nest.specs.Nesting as n;

use crate::inside::{Inside, Unfit, close, step_in, unit_opened};
use crate::role::{Role, closes, opens, role_of};
use cdc_base::List;
use cdc_tree::{ParseRefusal, Statement, UnitText};
use std::alloc::Global;

/// The units that are whole, and what is open of another.
#[derive(Drop)]
pub struct Open {
    pub units: Vec<UnitText>,
    pub inside: Option<Inside>,
}

/// How many blocks are open, or the line of the first statement that opened a 65th.
#[derive(Clone, Copy)]
pub enum Blocks {
    Open(u32),
    Over(u32),
}

/// At most so many blocks are open in one another.
const MOST_BLOCKS: u32 = 64;

fn is_program(role: Role) -> bool
    ensures { result ≡ n.is_program role }
{
    match role {
        Role::Program => true,
        _ => false,
    }
}

/// Whether one of the units is a main program.
fn has_main(units: &[UnitText]) -> bool
    ensures { result ≡ n.has_main (map unit units.now) }
{
    for unit in units {
        if is_program(role_of(&unit.head.form)) {
            return true;
        }
    }
    false
}

fn started(alloc: Global, units: Vec<UnitText>, head: Statement) -> Result<Open, Unfit>
    ensures { n.Makes n.opened_so result (Some (n.started (map unit units.items) (f.statement head))) }
{
    let inside = Some(unit_opened(alloc, head)?);
    Ok(Open { units, inside })
}

/// A unit begins with PROGRAM, once in a file, or with SUBROUTINE.
fn may_begin(role: Role, units: &[UnitText]) -> bool
    ensures { result ≡ n.may_begin role (map unit units.now) }
{
    match role {
        Role::Program => !has_main(units),
        Role::Subroutine => true,
        _ => false,
    }
}

fn begin(alloc: Global, role: Role, units: Vec<UnitText>, head: Statement) -> Result<Open, Unfit>
    ensures { n.Makes n.opened_so result (n.begin role (map unit units.items) (f.statement head)) }
{
    if may_begin(role, units.as_slice()) {
        started(alloc, units, head)
    } else {
        Err(Unfit::Misfit)
    }
}

/// The units with the one that the END ends.
fn ended(mut units: Vec<UnitText>, inside: Inside, end: Statement) -> Result<Open, Unfit>
    ensures { n.Makes n.opened_so result (n.go_on Role.End (map unit units.items) (n.inside inside) (f.statement end)) }
{
    let unit = close(inside, end)?;
    units.push(unit)?;
    let inside = None;
    Ok(Open { units, inside })
}

/// A statement inside a unit that does not end it.
fn continued(
    alloc: Global,
    role: Role,
    units: Vec<UnitText>,
    inside: Inside,
    statement: Statement,
) -> Result<Open, Unfit>
    ensures { n.Makes n.opened_so result (n.continued role (map unit units.items) (n.inside inside) (f.statement statement)) }
{
    let inside = step_in(alloc, role, inside, statement)?;
    let inside = Some(inside);
    Ok(Open { units, inside })
}

/// A statement inside a unit.
fn go_on(
    alloc: Global,
    role: Role,
    units: Vec<UnitText>,
    inside: Inside,
    statement: Statement,
) -> Result<Open, Unfit>
    ensures { n.Makes n.opened_so result (n.go_on role (map unit units.items) (n.inside inside) (f.statement statement)) }
{
    match role {
        Role::End => ended(units, inside, statement),
        _ => continued(alloc, role, units, inside, statement),
    }
}

/// What is open after a further statement.
fn step(alloc: Global, role: Role, before: Open, statement: Statement) -> Result<Open, Unfit>
    ensures { n.Makes n.opened_so result (n.step_as role (n.opened_so before) (f.statement statement)) }
{
    let Open { units, inside } = before;
    match inside {
        Some(inside) => go_on(alloc, role, units, inside, statement),
        None => begin(alloc, role, units, statement),
    }
}

fn counted(before: Blocks, role: Role, line: u32) -> Blocks
    requires { n.IsLow before }
    ensures value { result ≡ n.counted before role line }
    ensures low { n.IsLow result }
{
    match before {
        Blocks::Open(count) => {
            if opens(role) {
                if count >= MOST_BLOCKS {
                    return Blocks::Over(line);
                }
                return Blocks::Open(count + 1);
            }
            if closes(role) {
                return Blocks::Open(count.saturating_sub(1));
            }
            Blocks::Open(count)
        }
        Blocks::Over(first) => Blocks::Over(first),
    }
}

/// How far the statements were read: what is open, and the line of the last statement.
#[derive(Drop)]
pub struct Progress {
    pub open: Open,
    pub blocks: Blocks,
    pub last: u32,
}

/// The line of a 65th block before this line.
fn past(blocks: Blocks, line: u32) -> Option<u32>
    ensures { n.IsPast blocks line result }
{
    match blocks {
        Blocks::Open(_) => None,
        Blocks::Over(first) => { if first < line { Some(first) } else { None } }
    }
}

fn fitted(
    alloc: Global,
    role: Role,
    before: Open,
    statement: Statement,
    line: u32,
) -> Result<Open, ParseRefusal>
    ensures { n.IsFitted line (n.step_as role (n.opened_so before) (f.statement statement)) result }
{
    match step(alloc, role, before, statement) {
        Ok(open) => Ok(open),
        Err(Unfit::Misfit) => Err(ParseRefusal::Nesting(line)),
        Err(Unfit::Memory) => Err(ParseRefusal::Memory),
    }
}

/// One statement more.
pub(crate) fn advanced(
    alloc: Global,
    before: Progress,
    statement: Statement,
) -> Result<Progress, ParseRefusal>
    requires { n.IsLow before.blocks }
    ensures { n.Advances before (f.statement statement) result }
{
    let line = statement.place.line;
    let Progress {
        open,
        blocks,
        last: _,
    } = before;
    if let Some(first) = past(blocks, line) {
        drop(open);
        return Err(ParseRefusal::Depth(first));
    }
    let role = role_of(&statement.form);
    let open = fitted(alloc, role, open, statement, line)?;
    let blocks = counted(blocks, role, line);
    Ok(Progress {
        open,
        blocks,
        last: line,
    })
}

/// What is answered where no block is open.
fn between(units: Vec<UnitText>, blocks: Blocks, last: u32) -> Result<List<UnitText>, ParseRefusal>
    ensures { n.IsFinished (n.Between (map unit units.items)) blocks last result }
{
    if !has_main(units.as_slice()) {
        return Err(ParseRefusal::Nesting(last));
    }
    match blocks {
        Blocks::Open(_) => Ok(List::of(units)),
        Blocks::Over(line) => Err(ParseRefusal::Depth(line)),
    }
}

/// What is answered after the last statement.
pub(crate) fn finished(progress: Progress) -> Result<List<UnitText>, ParseRefusal>
    ensures { n.IsFinished (n.opened_so progress.open) progress.blocks progress.last result }
{
    let Progress { open, blocks, last } = progress;
    let Open { units, inside } = open;
    match inside {
        None => between(units, blocks, last),
        Some(inside) => {
            drop(inside);
            Err(ParseRefusal::Nesting(last))
        }
    }
}

/// The program units that the statements are, written out in order. The statements are those of a
/// source, in order; they are spent also on a refusal.
///
/// The least line is refused, and on one line `Nesting` comes before `Depth`. Where the statements
/// end too early or have no main program, `Nesting` has the line of the last one, or 1.
/// `NotAStatement` is never answered.
pub fn units(alloc: Global, statements: List<Statement>) -> Result<List<UnitText>, ParseRefusal>
    requires { InOrder (map f.statement statements) }
    ensures { AreNested (map f.statement statements) result }
{
    let open = Open {
        units: Vec::new(alloc),
        inside: None,
    };
    let blocks = Blocks::Open(0);
    let mut progress = Progress {
        open,
        blocks,
        last: 1,
    };
    for statement in statements.into_vec() {
        match advanced(alloc, progress, statement) {
            Ok(next) => progress = next,
            Err(refusal) => return Err(refusal),
        }
    }
    finished(progress)
}
