ghost use Rattle.std.specs.Prelude.{◌≡◌, map, option_map};
ghost use Rattle.std.specs.List.{list_any};
ghost use Rattle.cdc_names.specs.Places.{first_of};
ghost use Rattle.cdc_tree.specs.Plain.{plain};
ghost use Rattle.cdc_tree.specs.Forms.{bound};
ghost use Rattle.cdc_names.specs.Declarations.{plain_declaration};
ghost use Rattle.cdc_names.specs.Scopes.{plain_scope};
ghost use Rattle.cdc_names.specs.Shapes.{may_be_whole, is_read, is_misused, misused, low_of, is_above, is_reversed, misshapen, shape_in};

use crate::constants::constant;
use crate::declaration::Declaration;
use crate::name_use::{NameUse, Role};
use crate::place::{place_if, sooner};
use crate::scope::{Scope, Sort};
use crate::table::Table;
use cdc_base::Place;
use cdc_tree::{Bound, Tree};

fn may_be_whole(role: Role) -> bool
    ensures { result ≡ may_be_whole role }
{
    match role {
        Role::Actual => true,
        Role::Dummy => true,
        _ => false,
    }
}

fn is_read(role: Role) -> bool
    ensures { result ≡ is_read role }
{
    match role {
        Role::Read => true,
        Role::Actual => true,
        _ => false,
    }
}

fn is_misused(sort: Option<Sort>, role: Role, subs: usize) -> bool
    ensures { result ≡ is_misused sort role subs }
{
    match sort {
        None => subs != 0,
        Some(Sort::Scalar) => subs != 0,
        Some(Sort::Array(n)) => subs != n && !(may_be_whole(role) && subs == 0),
        Some(Sort::Parameter) => subs != 0 || !is_read(role),
    }
}

fn misused(scope: &Scope, u: &NameUse) -> Option<Place>
    ensures { result ≡ misused (plain_scope scope.now) u.now }
{
    place_if(is_misused(scope.sorts.get(u.name), u.role, u.subs), u.place)
}

fn first_misused(scope: &Scope, uses: &[NameUse]) -> Option<Place>
    ensures { result ≡ first_of (misused (plain_scope scope.now)) uses.now }
{
    let mut best = None;
    for u in uses {
        best = sooner(best, misused(scope, u));
    }
    best
}

/// The value of a lower bound, which is 1 where none is written.
pub fn low_of(values: &Table<i64>, low: &Option<Tree>) -> Option<i64>
    ensures { result ≡ low_of values.now (option_map plain low.now) }
{
    match low {
        None => Some(1),
        Some(t) => constant(values, t),
    }
}

fn is_above(low: Option<i64>, high: Option<i64>) -> bool
    ensures { result ≡ is_above low high }
{
    match (low, high) {
        (Some(low), Some(high)) => high < low,
        _ => false,
    }
}

fn is_reversed(values: &Table<i64>, b: &Bound) -> bool
    ensures { result ≡ is_reversed values.now (bound b.now) }
{
    is_above(low_of(values, &b.low), constant(values, &b.high))
}

fn any_reversed(values: &Table<i64>, bounds: &[Bound]) -> bool
    ensures { result ≡ list_any (is_reversed values.now) (map bound bounds.now) }
{
    for b in bounds {
        if is_reversed(values, b) {
            return true;
        }
    }
    false
}

fn misshapen(values: &Table<i64>, d: &Declaration) -> Option<Place>
    ensures { result ≡ misshapen values.now (plain_declaration d.now) }
{
    let bounds = d.bounds;
    let wrong = 3 < bounds.len() || any_reversed(values, bounds);
    place_if(wrong, d.named.place)
}

fn first_misshapen(values: &Table<i64>, ds: &[Declaration]) -> Option<Place>
    ensures { result ≡ first_of (misshapen values.now) (map plain_declaration ds.now) }
{
    let mut best = None;
    for d in ds {
        best = sooner(best, misshapen(values, d));
    }
    best
}

fn shape_in(scope: &Scope) -> Option<Place>
    ensures { result ≡ shape_in (plain_scope scope.now) }
{
    sooner(
        first_misused(scope, scope.uses.as_slice()),
        first_misshapen(&scope.values, scope.declarations.as_slice()),
    )
}

/// The first use that does not fit the declaration of its name, or declared name with more than
/// three dimensions or a lower bound above the upper (ISO/IEC 1539:1991, sections 5.1.2.4 and 6.2).
pub fn first_shape(scopes: &[Scope]) -> Option<Place>
    ensures { result ≡ first_of shape_in (map plain_scope scopes.now) }
{
    let mut best = None;
    for scope in scopes {
        best = sooner(best, shape_in(scope));
    }
    best
}
