ghost use Rattle.std.specs.Prelude.{◌≡◌, map, IfOk};
ghost use Rattle.cdc_tree.specs.Forms.{form};
ghost use Rattle.cdc_tree.specs.Units as trees;
ghost use Rattle.cdc_names.specs.Scopes.{plain_scope};
ghost use Rattle.cdc_prog.specs.Translation.{unit_of};
ghost use Rattle.cdc_check.specs.Threads.{each};
ghost use Rattle.cdc_check.specs.Units.{whole, head_name, unit_in, units_from, nothing_yet, is_program, main_from};

use crate::constructs::nodes;
use crate::copies::bytes_of;
use crate::meaning::{Names, next};
use crate::objects::named_in;
use crate::progress::{Progress, Shape};
use cdc_base::List;
use cdc_names::{Scope, add};
use cdc_prog::Unit;
use cdc_tree::{Form, UnitText};
use std::alloc::{AllocError, Global};

fn head_name(head: &Form) -> &[u8]
    ensures { result.now ≡ head_name (form head.now) }
{
    match head {
        Form::Program(name) => name.name.as_slice(),
        Form::Subroutine(name, _) => name.name.as_slice(),
        _ => &[],
    }
}

fn unit(
    alloc: Global,
    objects: &mut List<Shape>,
    state: &mut Progress,
    number: u32,
    u: &UnitText,
    scope: &Scope,
) -> Result<Unit, AllocError>
    ensures { IfOk result (λ r. (unit_of r, whole objects.new state.new) ≡ unit_in number (trees.unit u.now) (plain_scope scope.now) (whole objects.old state.old)) }
{
    let table = named_in(alloc, objects, number, scope)?;
    let names = Names::of_unit(&table);
    let name = bytes_of(alloc, head_name(&u.head.form))?;
    let body = nodes(alloc, &names, state, u.body.as_slice())?;
    Ok(Unit {
        name,
        dummies: List::new(alloc),
        body,
    })
}

/// What units resolve to, in order.
pub fn resolved_units(
    alloc: Global,
    objects: &mut List<Shape>,
    state: &mut Progress,
    us: &[UnitText],
    scopes: &[Scope],
) -> Result<List<Unit>, AllocError>
    ensures { IfOk result (λ rs. (map unit_of rs, whole objects.new state.new) ≡ each (units_from 0 (map trees.unit us.now) (map plain_scope scopes.now)) (whole objects.old state.old)) }
{
    let mut found = List::new(alloc);
    let mut number = 0;
    let mut rest = scopes;
    for u in us {
        match rest {
            [] => return Ok(found),
            [scope, more @ ..] => {
                let r = unit(alloc, objects, state, number, u, scope)?;
                add(&mut found, r)?;
                number = next(number);
                rest = more;
            }
        }
    }
    Ok(found)
}

fn is_program(head: &Form) -> bool
    ensures { result ≡ is_program (form head.now) }
{
    match head {
        Form::Program(_) => true,
        _ => false,
    }
}

/// The number of the main program among the units.
pub fn main_unit(us: &[UnitText]) -> u32
    ensures { result ≡ main_from 0 (map trees.unit us.now) }
{
    let mut k = 0;
    for u in us {
        if is_program(&u.head.form) {
            return k;
        }
        k = next(k);
    }
    0
}
