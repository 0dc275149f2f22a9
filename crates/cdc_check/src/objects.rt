ghost use Rattle.std.specs.Prelude.{◌≡◌, [], map, pos, ◌+ℤ◌, ◌-ℤ◌, IfOk, OnOk};
ghost use Rattle.cdc_prog.specs.Value.{at_least_zero};
ghost use Rattle.cdc_tree.specs.Forms.{bound};
ghost use Rattle.cdc_names.specs.Declarations.{plain_declaration};
ghost use Rattle.cdc_names.specs.Scopes.{plain_scope};
ghost use Rattle.cdc_check.specs.Objects.{capped, extent, dim_between, dim, naming, with_object, with_value, with_declared, declared_from, implied_from, named_in};

use crate::copies::bytes_of;
use crate::layout::words_limit;
use crate::meaning::{Meaning, numbered};
use crate::progress::Shape;
use cdc_base::List;
use cdc_names::{Declaration, NameUse, Scope, Table, add, constant, low_of};
use cdc_prog::{Dim, Var};
use cdc_tree::Bound;
use std::alloc::{AllocError, Global};

fn positions(low: i64, high: i64) -> i128
    ensures { result ≡ (high -ℤ low) +ℤ pos 1 }
{
    high as i128 - low as i128 + 1
}

fn cut(n: i128) -> u32
    ensures { result ≡ capped (at_least_zero n) }
{
    if n < 0 {
        return 0;
    }
    let most = words_limit() + 1;
    if n > most as i128 {
        return most;
    }
    n as u32
}

fn extent(low: i64, high: i64) -> u32
    ensures { result ≡ extent low high }
{
    cut(positions(low, high))
}

fn dim_between(low: Option<i64>, high: Option<i64>) -> Dim
    ensures { result ≡ dim_between low high }
{
    match (low, high) {
        (Some(low), Some(high)) => {
            Dim {
                low,
                extent: extent(low, high),
            }
        }
        _ => Dim { low: 0, extent: 1 },
    }
}

fn dim(values: &Table<i64>, b: &Bound) -> Dim
    ensures { result ≡ dim values.now (bound b.now) }
{
    dim_between(low_of(values, &b.low), constant(values, &b.high))
}

fn dims(alloc: Global, values: &Table<i64>, bounds: &[Bound]) -> Result<List<Dim>, AllocError>
    ensures { IfOk result (λ ds. ds ≡ map (dim values.now) (map bound bounds.now)) }
{
    let mut found = List::new(alloc);
    for b in bounds {
        add(&mut found, dim(values, b))?;
    }
    Ok(found)
}

/// A name that is not known yet is the next object.
fn object<'a>(
    alloc: Global,
    names: &mut Table<'a, Meaning>,
    objects: &mut List<Shape>,
    unit: u32,
    name: &'a [u8],
    dims: List<Dim>,
) -> Result<(), AllocError>
    ensures { OnOk result (naming names.new objects.new ≡ with_object unit name.now dims (naming names.old objects.old)) }
{
    if names.get(name).is_some() {
        return Ok(());
    }
    let number = numbered(objects.as_slice().len());
    let copy = bytes_of(alloc, name)?;
    names.set(name, Meaning::Variable(Var::Object(number)))?;
    add(
        objects,
        Shape {
            unit,
            name: copy,
            dims,
        },
    )
}

fn value<'a>(
    names: &mut Table<'a, Meaning>,
    name: &'a [u8],
    value: Option<i64>,
) -> Result<(), AllocError>
    ensures { OnOk result ((objects : _) → naming names.new objects ≡ with_value name.now value (naming names.old objects)) }
{
    match value {
        None => names.add(name, Meaning::Number(0)),
        Some(x) => names.add(name, Meaning::Number(x)),
    }
}

fn declare<'a>(
    alloc: Global,
    names: &mut Table<'a, Meaning>,
    objects: &mut List<Shape>,
    unit: u32,
    values: &Table<i64>,
    d: &Declaration<'a>,
) -> Result<(), AllocError>
    ensures { OnOk result (naming names.new objects.new ≡ with_declared unit values.now (naming names.old objects.old) (plain_declaration d.now)) }
{
    let name = d.named.name.as_slice();
    if d.value.is_some() {
        return value(names, name, values.get(name));
    }
    let dims = dims(alloc, values, d.bounds)?;
    object(alloc, names, objects, unit, name, dims)
}

fn declare_all<'a>(
    alloc: Global,
    names: &mut Table<'a, Meaning>,
    objects: &mut List<Shape>,
    unit: u32,
    values: &Table<i64>,
    ds: &[Declaration<'a>],
) -> Result<(), AllocError>
    ensures { OnOk result (naming names.new objects.new ≡ declared_from unit values.now (naming names.old objects.old) (map plain_declaration ds.now)) }
{
    for d in ds {
        declare(alloc, names, objects, unit, values, d)?;
    }
    Ok(())
}

fn imply_all<'a>(
    alloc: Global,
    names: &mut Table<'a, Meaning>,
    objects: &mut List<Shape>,
    unit: u32,
    uses: &[NameUse<'a>],
) -> Result<(), AllocError>
    ensures { OnOk result (naming names.new objects.new ≡ implied_from unit (naming names.old objects.old) uses.now) }
{
    for u in uses {
        object(alloc, names, objects, unit, u.name, List::new(alloc))?;
    }
    Ok(())
}

/// What the names of a unit stand for; its variables are added to the objects.
pub fn named_in<'a>(
    alloc: Global,
    objects: &mut List<Shape>,
    unit: u32,
    scope: &Scope<'a>,
) -> Result<Table<'a, Meaning>, AllocError>
    ensures { IfOk result (λ names. naming names objects.new ≡ named_in unit (plain_scope scope.now) objects.old) }
{
    let mut names = Table::new(alloc);
    declare_all(
        alloc,
        &mut names,
        objects,
        unit,
        &scope.values,
        scope.declarations.as_slice(),
    )?;
    imply_all(alloc, &mut names, objects, unit, scope.uses.as_slice())?;
    Ok(names)
}
