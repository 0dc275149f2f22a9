// The kinds of refusal, asked in their order.
ghost use Rattle.std.specs.Prelude.{◌≡◌, ◌+◌, ◌∷◌, nat_lt, map, length, IfOk};
ghost use Rattle.std.specs.List.{list_any};
ghost use Rattle.cdc_tree.specs.Forms.{form};
ghost use Rattle.cdc_tree.specs.Units.{unit};
ghost use Rattle.cdc_names.specs.Scopes.{plain_scope};
ghost use Rattle.cdc_names.specs.Duplicates.{dummy_names, slot_lists};
ghost use Rattle.cdc_prog.specs.declared.program.Kind.TheVariants.{Dummies, Privates};
ghost use Rattle.cdc_prog.specs.Limits.{limit};
ghost use Rattle.cdc_check.specs.Check.{names_refused, counts_refused};
ghost use Rattle.cdc_check.specs.Refusals.{Stands};

use crate::refusal::CheckRefusal;
use cdc_base::List;
use cdc_names::{
    Label, Scope, first_do_variable, first_doall_body, first_duplicate, first_not_constant,
    first_not_private, first_shape, first_undeclared, slot_lists,
};
use cdc_prog::{Kind, limit};
use cdc_tree::{Form, UnitText};
use std::alloc::{AllocError, Global};

/// The first refusal of the names of units.
pub fn refuse_names(alloc: Global, units: &[UnitText], scopes: &[Scope]) -> Result<(), CheckRefusal>
    ensures { Stands result (names_refused (map unit units.now) (map plain_scope scopes.now)) }
{
    if let Some(p) = first_undeclared(scopes) {
        return Err(CheckRefusal::Undeclared(p));
    }
    if let Some((p, q)) = first_duplicate(alloc, units)? {
        return Err(CheckRefusal::Duplicate(p, q));
    }
    if let Some(p) = first_not_constant(alloc, scopes)? {
        return Err(CheckRefusal::NotConstant(p));
    }
    if let Some(p) = first_shape(scopes) {
        return Err(CheckRefusal::Shape(p));
    }
    if let Some(p) = first_do_variable(alloc, scopes)? {
        return Err(CheckRefusal::DoVariable(p));
    }
    if let Some(p) = first_doall_body(units) {
        return Err(CheckRefusal::DoallBody(p));
    }
    if let Some(p) = first_not_private(alloc, scopes)? {
        return Err(CheckRefusal::NotPrivate(p));
    }
    Ok(())
}

fn dummies(head: &Form) -> usize
    ensures { result ≡ length (dummy_names (form head.now)) }
{
    match head {
        Form::Subroutine(_, dummies) => dummies.as_slice().len(),
        _ => 0,
    }
}

fn many_dummies(units: &[UnitText]) -> bool
    ensures { result ≡ list_any (λ u. nat_lt (limit Dummies) (length (dummy_names u.head.form))) (map unit units.now) }
{
    for u in units {
        if dummies(&u.head.form) as u64 > limit(Kind::Dummies) {
            return true;
        }
    }
    false
}

fn any_longer(lists: &[List<Label>]) -> bool
    ensures { result ≡ list_any (λ ns. nat_lt (limit Privates + 1) (length ns)) lists.now }
{
    for names in lists {
        if names.as_slice().len() as u64 > limit(Kind::Privates) + 1 {
            return true;
        }
    }
    false
}

fn many_privates(alloc: Global, units: &[UnitText]) -> Result<bool, AllocError>
    ensures { IfOk result (λ b. b ≡ list_any (λ ns. nat_lt (limit Privates + 1) (length ns)) (slot_lists (map unit units.now))) }
{
    let lists = slot_lists(alloc, units)?;
    Ok(any_longer(lists.as_slice()))
}

/// The first number of units, dummies or private names that is over its limit.
pub fn refuse_counts(alloc: Global, units: &[UnitText]) -> Result<(), CheckRefusal>
    ensures { Stands result (counts_refused (map unit units.now)) }
{
    if units.len() as u64 > limit(Kind::Units) {
        return Err(CheckRefusal::TooMany(Kind::Units));
    }
    if many_dummies(units) {
        return Err(CheckRefusal::TooMany(Kind::Dummies));
    }
    if many_privates(alloc, units)? {
        return Err(CheckRefusal::TooMany(Kind::Privates));
    }
    Ok(())
}
