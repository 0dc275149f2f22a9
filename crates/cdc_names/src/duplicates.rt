ghost use Rattle.std.specs.Prelude.{◌≡◌, map, IfOk, OnOk};
ghost use Rattle.cdc_tree.specs.Units.{unit};
ghost use Rattle.cdc_names.specs.Duplicates.{beside, twice, before_pair, sooner_pair, first_pair, duplicate_in};

use crate::declaration::Label;
use crate::name_lists::name_lists;
use crate::place::is_before;
use crate::table::Table;
use cdc_base::{List, Place};
use cdc_tree::UnitText;
use std::alloc::{AllocError, Global};

/// Whether a pair stands before another, by its first place and then by its second.
fn is_before_pair(p: (Place, Place), q: (Place, Place)) -> bool
    ensures { result ≡ before_pair p q }
{
    is_before(p.0, q.0) || (!is_before(q.0, p.0) && is_before(p.1, q.1))
}

/// The pair that stands first.
fn sooner_pair(a: Option<(Place, Place)>, b: Option<(Place, Place)>) -> Option<(Place, Place)>
    ensures { result ≡ sooner_pair a b }
{
    match (a, b) {
        (None, b) => b,
        (Some(p), None) => Some(p),
        (Some(p), Some(q)) => {
            if is_before_pair(q, p) {
                return Some(q);
            }
            Some(p)
        }
    }
}

fn beside(p: Place, next: Option<Place>, later: Option<(Place, Place)>) -> Option<(Place, Place)>
    ensures { result ≡ beside p next later }
{
    match next {
        None => later,
        Some(q) => Some((p, q)),
    }
}

/// The first name that stands again further on, and where it stands next.
fn twice(alloc: Global, names: &[Label]) -> Result<Option<(Place, Place)>, AllocError>
    ensures { IfOk result (λ r. r ≡ twice names.now) }
{
    let mut next = Table::new(alloc);
    let mut best = None;
    let mut at = names.len();
    while at > 0 {
        at -= 1;
        let label = &names[at];
        let name = label.name();
        let place = label.place();
        best = beside(place, next.get(name), best);
        next.set(name, place)?;
    }
    Ok(best)
}

/// The first pair of places at which a name stands twice: two declarations of a unit, two names
/// of a dummy list, two of the index and private names of a DOALL, or the names of two units.
pub fn first_duplicate(
    alloc: Global,
    units: &[UnitText],
) -> Result<Option<(Place, Place)>, AllocError>
    ensures { IfOk result (λ r. r ≡ duplicate_in (map unit units.now)) }
{
    let lists = name_lists(alloc, units)?;
    first_pair(alloc, lists.as_slice())
}

fn first_pair(alloc: Global, lists: &[List<Label>]) -> Result<Option<(Place, Place)>, AllocError>
    ensures { IfOk result (λ r. r ≡ first_pair None lists.now) }
{
    let mut best = None;
    for names in lists {
        best = sooner_pair(best, twice(alloc, names.as_slice())?);
    }
    Ok(best)
}
