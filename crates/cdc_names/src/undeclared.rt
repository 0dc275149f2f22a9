ghost use Rattle.std.specs.Prelude.{◌≡◌, map};
ghost use Rattle.cdc_names.specs.Places.{first_of};
ghost use Rattle.cdc_names.specs.Scopes.{plain_scope};
ghost use Rattle.cdc_names.specs.Undeclared.{is_integer, is_declared, undeclared, undeclared_in};

use crate::name_use::NameUse;
use crate::place::{place_if, sooner};
use crate::scope::Scope;
use cdc_base::Place;

fn is_integer(name: &[u8]) -> bool
    ensures { result ≡ is_integer name.now }
{
    match name {
        [] => false,
        [c, ..] => b'I' <= *c && *c <= b'N',
    }
}

fn is_declared(scope: &Scope, name: &[u8]) -> bool
    ensures { result ≡ is_declared (plain_scope scope.now) name.now }
{
    scope.sorts.get(name).is_some() || (scope.implicit && is_integer(name))
}

fn undeclared(scope: &Scope, u: &NameUse) -> Option<Place>
    ensures { result ≡ undeclared (plain_scope scope.now) u.now }
{
    place_if(!is_declared(scope, u.name), u.place)
}

fn undeclared_in(scope: &Scope) -> Option<Place>
    ensures { result ≡ undeclared_in (plain_scope scope.now) }
{
    let uses = scope.uses.as_slice();
    let mut best = None;
    for u in uses {
        best = sooner(best, undeclared(scope, u));
    }
    best
}

/// The first use of a name that is neither declared nor implicitly integer.
pub fn first_undeclared(scopes: &[Scope]) -> Option<Place>
    ensures { result ≡ first_of undeclared_in (map plain_scope scopes.now) }
{
    let mut best = None;
    for scope in scopes {
        best = sooner(best, undeclared_in(scope));
    }
    best
}
