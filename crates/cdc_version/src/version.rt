//! Version numbers with cached words.

ghost use Rattle.std.specs.Prelude.{◌≡◌, ◌≤◌, IsTrue, true};
ghost use Rattle.std.specs.List.Sorted.{IsStrictlyIncreasing};
ghost use Rattle.cdc_version.specs.Versions.{is_in, filled_birth, written_birth, vc_admits, kept_birth};

use crate::CurrentVersions;
use cdc_base::NoMemory;
use cdc_prog::Mark;
use cdc_scheme::Scheme;
use std::alloc::Global;

/// Version control. Each object has a current version number, and each boundary gives a new version to the objects in its
/// list. A copy's word is its birth version: the version that it belongs to. A marked read uses a copy only if that version
/// is not behind the current one. Numbers have `w` bits; where an object's number is the last, `2^w - 1`, the next boundary
/// that lists the object drops its copies, and its numbers begin again.
pub struct Version;

// Whether the object stands in the list.
fn is_written(written: &[u32], object: u32) -> bool
    requires order { IsStrictlyIncreasing written.now }
    ensures { result ≡ is_in object written.now }
{
    written.binary_search(&object).is_ok()
}

impl Scheme for Version {
    ghost use Rattle.cdc_version.specs.Numbers.{current_of, vc_starts, has_object, vc_closes, vc_dates, kept_dated};
    ghost use Rattle.cdc_version.specs.VersionsLaws.{target_born, neighbour_born, wrote_born, other_born, admitted_young};

    type Word = u16;

    type State = CurrentVersions;

    ghost has_caches = { true };

    ghost fits_width = { λ width. (2 ≤ width) × (width ≤ 16) };

    ghost starts = { vc_starts };

    ghost has_object = { has_object };

    ghost target_of = { λ versions object old. filled_birth (current_of versions object) old };

    ghost neighbour_of = { λ versions object old. filled_birth (current_of versions object) old };

    ghost wrote_of = { λ versions object. written_birth versions.last (current_of versions object) };

    ghost admits_of = { λ versions object mark birth. vc_admits (current_of versions object) mark birth };

    ghost keeps_of = { λ versions written object birth. kept_birth versions.last (current_of versions object) (is_in object written) birth };

    ghost closes = { vc_closes };

    ghost knows = { λ versions lists objects. Unit {0} };

    ghost dates = { vc_dates };

    ghost knows_start = { λ width count versions starts. tt };

    ghost knows_write = { λ versions lists objects other known. tt };

    ghost knows_boundary = { λ versions after lists objects written known covers closes. tt };

    ghost dates_write = { λ versions lists objects other object made birth dated. other_born lists object (current_of versions object) birth made other objects dated };

    ghost dates_target = { λ versions lists objects object before old known dated. target_born lists (is_in object objects) object (current_of versions object) before old dated };

    ghost dates_neighbour = { λ versions lists objects object before old known dated. neighbour_born lists (is_in object objects) object (current_of versions object) before old dated };

    ghost dates_wrote = { λ versions lists objects object known. wrote_born versions.last lists object (current_of versions object) objects };

    ghost first = { λ versions lists objects object made d birth known dated some admitted. admitted_young lists (is_in object objects) object (current_of versions object) birth made d dated some admitted };

    ghost second = { λ versions after lists objects written object made birth kept known covers dated keeps closes. kept_dated versions after lists objects written object made birth kept covers dated keeps closes };

    fn start(alloc: Global, width: u32, objects: u32) -> Result<CurrentVersions, NoMemory> {
        CurrentVersions::new(alloc, width, objects)
    }

    fn caches() -> bool {
        true
    }

    fn target(state: &CurrentVersions, object: u32, old: Option<u16>) -> u16
        requires object { IsTrue (has_object state.now object) }
        ensures { result ≡ filled_birth (current_of state.now object) old }
    {
        filled(state.current(object), old)
    }

    fn neighbour(state: &CurrentVersions, object: u32, old: Option<u16>) -> u16
        requires object { IsTrue (has_object state.now object) }
        ensures { result ≡ filled_birth (current_of state.now object) old }
    {
        filled(state.current(object), old)
    }

    fn wrote(state: &CurrentVersions, object: u32) -> u16 {
        state.current(object).saturating_add(1).min(state.last())
    }

    fn admits(state: &CurrentVersions, object: u32, mark: Mark, word: u16) -> bool {
        match mark {
            Mark::Ordinary => true,
            Mark::Time(_) => word >= state.current(object),
        }
    }

    fn keeps(state: &CurrentVersions, written: &[u32], object: u32, word: u16) -> Option<u16> {
        if state.current(object) == state.last() && is_written(written, object) {
            None
        } else {
            Some(word)
        }
    }

    fn boundary(state: &mut CurrentVersions, written: &[u32]) {
        state.advance(written);
    }
}

// The birth version of a copy that is filled from memory.
fn filled(current: u16, old: Option<u16>) -> u16
    ensures { result ≡ filled_birth current old }
{
    match old {
        Some(birth) => birth.max(current),
        None => current,
    }
}
