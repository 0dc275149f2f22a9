ghost use Rattle.std.specs.Prelude.{◌≡◌, [], map, IfOk};
ghost use Rattle.cdc_names.specs.Places.{first_of};
ghost use Rattle.cdc_names.specs.Privates.{sets_scalar, shared, shared_from, not_private_in};
ghost use Rattle.cdc_names.specs.Scopes.{plain_scope};

use crate::name_use::{NameUse, Role};
use crate::open_loops::OpenLoops;
use crate::place::{place_if, sooner};
use crate::scope::Scope;
use cdc_base::Place;
use std::alloc::{AllocError, Global};

fn sets_scalar(role: Role, subs: usize) -> bool
    ensures { result ≡ sets_scalar role subs }
{
    match role {
        Role::Assigned => subs == 0,
        Role::Counted => true,
        _ => false,
    }
}

fn shared(loops: &OpenLoops, u: &NameUse) -> Option<Place>
    ensures { result ≡ shared loops.now u.now }
{
    let wrong = sets_scalar(u.role, u.subs) && (loops.in_doall() && !loops.is_private(u.name));
    place_if(wrong, u.place)
}

fn shared_in<'a>(alloc: Global, uses: &[NameUse<'a>]) -> Result<Option<Place>, AllocError>
    ensures { IfOk result (λ r. r ≡ shared_from [] uses.now) }
{
    let mut loops = OpenLoops::new(alloc);
    let mut best = None;
    for u in uses {
        best = sooner(best, shared(&loops, u));
        loops.step(u.role, u.name)?;
    }
    Ok(best)
}

/// The first place in the body of a DOALL where a scalar that is not private in it is assigned or
/// made the variable of a DO. The index of a DOALL is not private in it.
pub fn first_not_private(alloc: Global, scopes: &[Scope]) -> Result<Option<Place>, AllocError>
    ensures { IfOk result (λ r. r ≡ first_of not_private_in (map plain_scope scopes.now)) }
{
    let mut best = None;
    for scope in scopes {
        best = sooner(best, shared_in(alloc, scope.uses.as_slice())?);
    }
    Ok(best)
}
