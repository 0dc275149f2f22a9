ghost use Rattle.std.specs.Prelude.{◌≡◌, ◌<◌, [], map, length, IfOk};
ghost use Rattle.cdc_tree.specs.Units as trees;
ghost use Rattle.cdc_prog.specs.Iterations.{HasDoallNumbers, KeepsPremises};
ghost use Rattle.cdc_prog.specs.Resolved.{HasNoCall};
ghost use Rattle.cdc_prog.specs.Translation.{program_of, unit_of};
ghost use Rattle.cdc_check.specs.Built.{AreBuilt};
ghost use Rattle.cdc_check.specs.Units.{whole};
ghost use Rattle.cdc_check.specs.Check.{finished, checked};
ghost use Rattle.cdc_check.specs.Refusals.{Answers};

use crate::layout::layout;
use crate::progress::{Progress, Shape};
use crate::refusal::CheckRefusal;
use crate::refuse::{refuse_counts, refuse_names};
use crate::units::{main_unit, resolved_units};
use cdc_base::List;
use cdc_names::scopes_of;
use cdc_prog::{Kind, Program, Unit, limit};
use cdc_tree::UnitText;
use std::alloc::Global;

fn finish(
    alloc: Global,
    main: u32,
    units: List<Unit>,
    objects: &[Shape],
    state: Progress,
) -> Result<Program, CheckRefusal>
    ensures { Answers program_of result (finished main (map unit_of units, whole objects.now state)) }
{
    let Progress {
        sites,
        doalls,
        texts,
    } = state;
    if objects.len() as u64 > limit(Kind::Objects) {
        return Err(CheckRefusal::TooMany(Kind::Objects));
    }
    let (objects, words) = layout(alloc, objects)?;
    if sites as u64 > limit(Kind::Sites) {
        return Err(CheckRefusal::TooMany(Kind::Sites));
    }
    Ok(Program {
        units,
        main,
        objects,
        texts,
        sites,
        doalls,
        words,
    })
}

fn program(alloc: Global, units: &[UnitText]) -> Result<Program, CheckRefusal>
    ensures { Answers program_of result (checked (map trees.unit units.now)) }
{
    let scopes = scopes_of(alloc, units)?;
    refuse_names(alloc, units, scopes.as_slice())?;
    refuse_counts(alloc, units)?;
    let mut objects = List::new(alloc);
    let mut state = Progress {
        sites: 0,
        doalls: 0,
        texts: List::new(alloc),
    };
    let resolved = resolved_units(alloc, &mut objects, &mut state, units, scopes.as_slice())?;
    finish(alloc, main_unit(units), resolved, objects.as_slice(), state)
}

/// The resolved program of units, or the first refusal in the order of the kinds; within a kind the
/// place that stands first. SUBROUTINE and CALL are not built yet.
pub fn check(alloc: Global, units: &List<UnitText>) -> Result<Program, CheckRefusal>
    requires built { AreBuilt (map trees.unit units.now) }
    requires some { 0 < length units.now }
    ensures answer { Answers program_of result (checked (map trees.unit units.now)) }

    // The iterations of its DOALL loops can be tested apart: each access of an accepted program lies
    // in its memory, a DOALL stores in its private scalars and in array elements alone, and inside a
    // DO or DOALL nothing stores in its variable (ISO/IEC 1539:1991, section 8.1.4.4.2).
    ensures premises { IfOk result (λ p. KeepsPremises (program_of p)) }

    // It calls nowhere, and its DOALL loops are numbered from 1.
    ensures calls { IfOk result (λ p. HasNoCall (program_of p)) }
    ensures doalls { IfOk result (λ p. HasDoallNumbers (program_of p)) }
{
    program(alloc, units.as_slice())
}
