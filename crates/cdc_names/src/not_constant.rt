ghost use Rattle.std.specs.Prelude.{◌≡◌, [], map, option_map, IfOk};
ghost use Rattle.std.specs.Option.{option_copied};
ghost use Rattle.cdc_names.specs.Places.{first_of};
ghost use Rattle.cdc_tree.specs.Plain.{plain};
ghost use Rattle.cdc_tree.specs.Forms.{bound};
ghost use Rattle.cdc_names.specs.Declarations.{plain_declaration};
ghost use Rattle.cdc_names.specs.Scopes.{plain_scope};
ghost use Rattle.cdc_names.specs.NotConstant.{not_constant, optional_not_constant, bound_not_constant, declares_no_constant, not_constants, not_constant_in};

use crate::constants::{constant, place_of};
use crate::declaration::Declaration;
use crate::place::sooner;
use crate::scope::{Scope, learn};
use crate::table::Table;
use cdc_base::Place;
use cdc_tree::{Bound, Tree};
use std::alloc::{AllocError, Global};

fn not_constant(values: &Table<i64>, t: &Tree) -> Option<Place>
    ensures { result ≡ not_constant values.now (plain t.now) }
{
    match constant(values, t) {
        None => Some(place_of(t)),
        Some(_) => None,
    }
}

fn optional_low(values: &Table<i64>, t: &Option<Tree>) -> Option<Place>
    ensures { result ≡ optional_not_constant values.now (option_map plain t.now) }
{
    match t {
        None => None,
        Some(t) => not_constant(values, t),
    }
}

fn optional_value(values: &Table<i64>, t: Option<&Tree>) -> Option<Place>
    ensures { result ≡ optional_not_constant values.now (option_map plain (option_copied t.entry)) }
{
    match t {
        None => None,
        Some(t) => not_constant(values, t),
    }
}

fn bound_not_constant(values: &Table<i64>, b: &Bound) -> Option<Place>
    ensures { result ≡ bound_not_constant values.now (bound b.now) }
{
    sooner(optional_low(values, &b.low), not_constant(values, &b.high))
}

fn bounds_not_constant(values: &Table<i64>, bounds: &[Bound]) -> Option<Place>
    ensures { result ≡ first_of (bound_not_constant values.now) (map bound bounds.now) }
{
    let mut best = None;
    for b in bounds {
        best = sooner(best, bound_not_constant(values, b));
    }
    best
}

fn declares_no_constant(values: &Table<i64>, d: &Declaration) -> Option<Place>
    ensures { result ≡ declares_no_constant values.now (plain_declaration d.now) }
{
    sooner(
        bounds_not_constant(values, d.bounds),
        optional_value(values, d.value),
    )
}

fn not_constants(alloc: Global, ds: &[Declaration]) -> Result<Option<Place>, AllocError>
    ensures { IfOk result (λ r. r ≡ not_constants [] (map plain_declaration ds.now)) }
{
    let mut values = Table::new(alloc);
    let mut best = None;
    for d in ds {
        best = sooner(best, declares_no_constant(&values, d));
        learn(&mut values, d)?;
    }
    Ok(best)
}

/// The first expression of a bound or value of a PARAMETER that is no constant expression, or
/// whose evaluation faults.
pub fn first_not_constant(alloc: Global, scopes: &[Scope]) -> Result<Option<Place>, AllocError>
    ensures { IfOk result (λ r. r ≡ first_of not_constant_in (map plain_scope scopes.now)) }
{
    let mut best = None;
    for scope in scopes {
        best = sooner(best, not_constants(alloc, scope.declarations.as_slice())?);
    }
    Ok(best)
}
