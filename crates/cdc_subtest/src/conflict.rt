// The first DOALL whose references nothing tells apart.
ghost use Rattle.std.specs.Prelude.{◌≡◌, ◌<◌, map, IfOk};
ghost use Rattle.cdc_prog.specs.Dependence.{shapes_of};
ghost use Rattle.cdc_prog.specs.Translation.{stmt_of, stmts_of, unit_of, program_of};
ghost use Rattle.cdc_subtest.specs.Conflicts.{conflict_in};
ghost use Rattle.cdc_subtest.specs.Searches.{is_before, with_pair, searched, searched_units};

use crate::verdict::places_in;
use cdc_base::{NoMemory, Place};
use cdc_prog::{Dummy, Object, Program, Stmt, Unit};
use std::alloc::Global;

/// How far a search has come.
#[derive(Clone, Copy, Debug, PartialEq, Eq)]
pub struct Search {
    /// The DOALLs that are still to be tested have numbers from 1 to this one.
    pub last: u32,
    /// The failing pair of the least number after those.
    pub pair: Option<(Place, Place)>,
}

fn is_before(search: Search, number: u32) -> bool
    ensures { result ≡ is_before search number }
{
    0 < number && number <= search.last
}

fn with_pair(search: Search, number: u32, found: Option<(Place, Place)>) -> Search
    requires { 0 < number }
    ensures { result ≡ with_pair search number found }
{
    match found {
        None => search,
        Some(pair) => Search {
            last: number - 1,
            pair: Some(pair),
        },
    }
}

#[cycle(search)]
fn search_in(
    alloc: Global,
    objects: &[Object],
    dummies: &[Dummy],
    s: &Stmt,
    search: Search,
) -> Result<Search, NoMemory>
    ensures { IfOk result (λ r. r ≡ searched objects.now (shapes_of dummies.now) (stmt_of s.now) search) }
{
    match s {
        Stmt::If { arms, other } => {
            let mut found = search;
            for arm in arms.as_slice() {
                found = search_in_all(alloc, objects, dummies, arm.body.as_slice(), found)?;
            }
            search_in_all(alloc, objects, dummies, other.as_slice(), found)
        }
        Stmt::Do { body, .. } => search_in_all(alloc, objects, dummies, body.as_slice(), search),
        Stmt::Doall {
            control,
            number,
            slots,
            body,
        } => {
            if is_before(search, *number) {
                let pair = places_in(alloc, objects, dummies, control, *slots, body.as_slice())?;
                Ok(with_pair(search, *number, pair))
            } else {
                Ok(search)
            }
        }
        _ => Ok(search),
    }
}

#[cycle(search)]
fn search_in_all(
    alloc: Global,
    objects: &[Object],
    dummies: &[Dummy],
    ss: &[Stmt],
    search: Search,
) -> Result<Search, NoMemory>
    ensures { IfOk result (λ r. r ≡ searched objects.now (shapes_of dummies.now) (stmts_of ss.now) search) }
{
    let mut found = search;
    for s in ss {
        found = search_in(alloc, objects, dummies, s, found)?;
    }
    Ok(found)
}

fn search_in_units(
    alloc: Global,
    objects: &[Object],
    units: &[Unit],
    search: Search,
) -> Result<Search, NoMemory>
    ensures { IfOk result (λ r. r ≡ searched_units objects.now (map unit_of units.now) search) }
{
    let mut found = search;
    for u in units {
        let dummies = u.dummies.as_slice();
        found = search_in_all(alloc, objects, dummies, u.body.as_slice(), found)?;
    }
    Ok(found)
}

/// The places of the failing pair of the DOALL with the least number that has one, in one walk over the program. Of a
/// pair the reference that comes first in the text's order of accesses comes first.
///
/// # Errors
///
/// Memory ran out.
pub fn first_conflict(alloc: Global, program: &Program) -> Result<Option<(Place, Place)>, NoMemory>
    ensures { IfOk result (λ found. found ≡ conflict_in (program_of program.now)) }
{
    let all = Search {
        last: program.doalls,
        pair: None,
    };
    let units = program.units.as_slice();
    let found = search_in_units(alloc, program.objects.as_slice(), units, all)?;
    Ok(found.pair)
}
