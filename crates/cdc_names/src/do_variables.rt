ghost use Rattle.std.specs.Prelude.{◌≡◌, [], map, IfOk};
ghost use Rattle.cdc_names.specs.Places.{first_of};
ghost use Rattle.cdc_names.specs.DoVariables.{changes, is_counted, spoiled, spoiled_from, do_variable_in};
ghost use Rattle.cdc_names.specs.Scopes.{plain_scope};

use crate::name_use::{NameUse, Role};
use crate::open_loops::OpenLoops;
use crate::place::{place_if, sooner};
use crate::scope::Scope;
use cdc_base::Place;
use std::alloc::{AllocError, Global};

fn changes(role: Role) -> bool
    ensures { result ≡ changes role }
{
    match role {
        Role::Assigned => true,
        Role::Input => true,
        Role::Counted => true,
        _ => false,
    }
}

fn is_counted(role: Option<Role>) -> bool
    ensures { result ≡ is_counted role }
{
    match role {
        Some(Role::Counted) => true,
        _ => false,
    }
}

fn spoiled(loops: &OpenLoops, u: &NameUse) -> Option<Place>
    ensures { result ≡ spoiled loops.now u.now }
{
    let wrong = changes(u.role) && is_counted(loops.opened_as(u.name));
    place_if(wrong, u.place)
}

fn spoiled_in<'a>(alloc: Global, uses: &[NameUse<'a>]) -> Result<Option<Place>, AllocError>
    ensures { IfOk result (λ r. r ≡ spoiled_from [] uses.now) }
{
    let mut loops = OpenLoops::new(alloc);
    let mut best = None;
    for u in uses {
        best = sooner(best, spoiled(&loops, u));
        loops.step(u.role, u.name)?;
    }
    Ok(best)
}

/// The first place inside a DO where its variable is assigned, read into or made the variable of
/// an inner DO (ISO/IEC 1539:1991, section 8.1.4.4.2).
pub fn first_do_variable(alloc: Global, scopes: &[Scope]) -> Result<Option<Place>, AllocError>
    ensures { IfOk result (λ r. r ≡ first_of do_variable_in (map plain_scope scopes.now)) }
{
    let mut best = None;
    for scope in scopes {
        best = sooner(best, spoiled_in(alloc, scope.uses.as_slice())?);
    }
    Ok(best)
}
