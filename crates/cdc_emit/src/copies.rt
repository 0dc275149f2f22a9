// Copies of what a program's code takes of the program and of its marks.
ghost use Rattle.std.specs.Prelude.{◌≡◌, IfOk, map};

use cdc_base::{List, NoMemory};
use cdc_prog::{Dim, Object, Unit};
use std::alloc::Global;

/// A copy of a list.
///
/// # Errors
///
/// Want of memory.
pub fn copied<T: Copy>(alloc: Global, items: &[T]) -> Result<List<T>, NoMemory>
    ensures { IfOk result (λ copy. copy ≡ items.now) }
{
    Ok(List::of(Vec::from_slice(alloc, items)?))
}

/// A copy of a list of lists.
///
/// # Errors
///
/// Want of memory.
pub fn copied_lists<T: Copy>(alloc: Global, lists: &[List<T>]) -> Result<List<List<T>>, NoMemory>
    ensures { IfOk result (λ copy. copy ≡ lists.now) }
{
    let mut copy = Vec::new(alloc);
    for list in lists {
        copy.push(copied(alloc, list.as_slice())?)?;
    }
    Ok(List::of(copy))
}

/// A copy of the objects of a program.
///
/// # Errors
///
/// Want of memory.
pub fn copied_objects(alloc: Global, objects: &[Object]) -> Result<List<Object>, NoMemory>
    ensures { IfOk result (λ copy. copy ≡ objects.now) }
{
    let mut copy = Vec::new(alloc);
    for object in objects {
        copy.push(copied_object(alloc, object)?)?;
    }
    Ok(List::of(copy))
}

// A copy of an object.
fn copied_object(alloc: Global, object: &Object) -> Result<Object, NoMemory>
    ensures { IfOk result (λ copy. copy ≡ object.now) }
{
    Ok(Object {
        unit: object.unit,
        name: copied(alloc, object.name.as_slice())?,
        dims: copied(alloc, object.dims.as_slice())?,
        base: object.base,
        words: object.words,
    })
}

/// For each unit the dimensions of each of its dummies in order.
///
/// # Errors
///
/// Want of memory.
pub fn shapes(alloc: Global, units: &[Unit]) -> Result<List<List<List<Dim>>>, NoMemory>
    ensures { IfOk result (λ all. all ≡ map (λ u. map (λ d. d.dims) u.dummies) units.now) }
{
    let mut all = Vec::new(alloc);
    for unit in units {
        all.push(shape(alloc, unit)?)?;
    }
    Ok(List::of(all))
}

// The dimensions of the dummies of a unit.
fn shape(alloc: Global, unit: &Unit) -> Result<List<List<Dim>>, NoMemory>
    ensures { IfOk result (λ dims. dims ≡ map (λ d. d.dims) unit.now.dummies) }
{
    let mut dims = Vec::new(alloc);
    for dummy in unit.dummies.as_slice() {
        dims.push(copied(alloc, dummy.dims.as_slice())?)?;
    }
    Ok(List::of(dims))
}
