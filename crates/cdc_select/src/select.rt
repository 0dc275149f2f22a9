//! A change bit with each cached word.

ghost use Rattle.std.specs.Prelude.{◌≡◌, true};
ghost use Rattle.cdc_select.specs.ChangeBits.{new_bit, si_admits, si_keeps, IsStamped};
ghost use Rattle.cdc_select.specs.ChangeBitsLaws.{present_stamped, beside_stamped, admitted_young, kept_stamped};

use cdc_base::NoMemory;
use cdc_prog::Mark;
use cdc_scheme::Scheme;
use std::alloc::Global;

/// Selective invalidation. A copy's word is its change bit: whether a boundary came since it was read or written. A marked
/// read uses a copy only without it, so only one of the present epoch.
pub struct Select;

impl Scheme for Select {
    type Word = bool;

    type State = ();

    ghost has_caches = { true };

    ghost fits_width = { λ width. Unit {0} };

    ghost starts = { λ width count state. Unit {0} };

    ghost has_object = { λ state object. true };

    ghost target_of = { λ state object old. new_bit };

    ghost neighbour_of = { λ state object old. new_bit };

    ghost wrote_of = { λ state object. new_bit };

    ghost admits_of = { λ state object mark bit. si_admits mark bit };

    ghost keeps_of = { λ state written object bit. si_keeps bit };

    ghost closes = { λ state written after. Unit {0} };

    ghost knows = { λ state lists objects. Unit {0} };

    ghost dates = { λ state lists objects object bit made. IsStamped lists bit made };

    ghost knows_start = { λ width count state start. tt };

    ghost knows_write = { λ state lists objects other known. tt };

    ghost knows_boundary = { λ state after lists objects written known covers closes. tt };

    ghost dates_write = { λ state lists objects other object made bit dated. dated };

    ghost dates_target = { λ state lists objects object before old known dated. present_stamped lists };

    ghost dates_neighbour = { λ state lists objects object before old known dated. beside_stamped lists before old dated };

    ghost dates_wrote = { λ state lists objects object known. present_stamped lists };

    ghost first = { λ state lists objects object made d bit known dated some admitted. admitted_young lists object made d bit dated some admitted };

    ghost second = { λ state after lists objects written object made bit kept known covers dated keeps closes. kept_stamped lists written made bit kept dated keeps };

    fn start(_alloc: Global, _width: u32, _objects: u32) -> Result<(), NoMemory> {
        Ok(())
    }

    fn caches() -> bool {
        true
    }

    fn target(_state: &(), _object: u32, _old: Option<bool>) -> bool
        ensures { result ≡ new_bit }
    {
        false
    }

    fn neighbour(_state: &(), _object: u32, _old: Option<bool>) -> bool
        ensures { result ≡ new_bit }
    {
        false
    }

    fn wrote(_state: &(), _object: u32) -> bool {
        false
    }

    fn admits(_state: &(), _object: u32, mark: Mark, word: bool) -> bool {
        match mark {
            Mark::Ordinary => true,
            Mark::Time(_) => !word,
        }
    }

    fn keeps(_state: &(), _written: &[u32], _object: u32, _word: bool) -> Option<bool> {
        Some(true)
    }

    fn boundary(_state: &mut (), _written: &[u32]) {}
}
