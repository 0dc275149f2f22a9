//! Tags of epochs with cached words.

ghost use Rattle.std.specs.Prelude.{◌≡◌, ◌≤◌, true, refl};
ghost use Rattle.cdc_phase.specs.Tags.{neighbour_tag, tpi_admits, kept_tag};

use crate::Counter;
use cdc_base::NoMemory;
use cdc_prog::Mark;
use cdc_scheme::Scheme;
use std::alloc::Global;

/// Two-phase invalidation. A copy's word is its tag, the number of its epoch. Numbers wrap at `2^w` for a width of `w`
/// bits, so the boundary with which a phase of `2^(w-1)` epochs begins drops the copies of the last turn of that phase. A
/// marked read uses a copy only if it is at most as many epochs old as the mark says.
pub struct Phase;

impl Scheme for Phase {
    ghost use Rattle.cdc_phase.specs.Phases.{all_of, half_of, tpi_starts, tpi_closes, tpi_knows, tpi_dates, knows_start, knows_boundary, present_dated, beside_dated, admitted_young, kept_dated};

    type Word = u16;

    type State = Counter;

    ghost has_caches = { true };

    ghost fits_width = { λ width. (2 ≤ width) × (width ≤ 16) };

    ghost starts = { tpi_starts };

    ghost has_object = { λ counter object. true };

    ghost target_of = { λ counter object old. counter.count };

    ghost neighbour_of = { λ counter object old. neighbour_tag (all_of counter) counter.count old };

    ghost wrote_of = { λ counter object. counter.count };

    ghost admits_of = { λ counter object mark tag. tpi_admits (all_of counter) counter.count mark tag };

    ghost keeps_of = { λ counter written object tag. kept_tag (half_of counter) (all_of counter) counter.count tag };

    ghost closes = { tpi_closes };

    ghost knows = { tpi_knows };

    ghost dates = { λ counter lists objects object tag made. tpi_dates counter lists tag made };

    ghost knows_start = { knows_start };

    ghost knows_write = { λ counter lists objects other known. known };

    ghost knows_boundary = { λ counter after lists objects written known covers closes. knows_boundary counter after lists objects written known closes };

    ghost dates_write = { λ counter lists objects other object made tag dated. dated };

    ghost dates_target = { λ counter lists objects object before old known dated. present_dated counter lists objects known };

    ghost dates_neighbour = { λ counter lists objects object before old known dated. beside_dated counter lists objects before old known dated };

    ghost dates_wrote = { λ counter lists objects object known. present_dated counter lists objects known };

    ghost first = { λ counter lists objects object made d tag known dated some admitted. admitted_young counter lists objects object made d tag known dated admitted };

    ghost second = { λ counter after lists objects written object made tag kept known covers dated keeps closes. kept_dated counter after lists objects written made tag kept known dated keeps closes };

    fn start(_alloc: Global, width: u32, _objects: u32) -> Result<Counter, NoMemory> {
        Ok(Counter::new(width))
    }

    fn caches() -> bool {
        true
    }

    fn target(state: &Counter, _object: u32, _old: Option<u16>) -> u16
        ensures { result ≡ state.now.count }
    {
        state.count()
    }

    fn neighbour(state: &Counter, _object: u32, old: Option<u16>) -> u16
        ensures { result ≡ neighbour_tag (all_of state.now) state.now.count old }
    {
        match old {
            Some(tag) if tag == state.count() => tag,
            _ => state.before(),
        }
    }

    fn wrote(state: &Counter, _object: u32) -> u16 {
        state.count()
    }

    fn admits(state: &Counter, _object: u32, mark: Mark, word: u16) -> bool {
        match mark {
            Mark::Ordinary => true,
            Mark::Time(d) => state.age(word) <= u16::from(d),
        }
    }

    fn keeps(state: &Counter, _written: &[u32], _object: u32, word: u16) -> Option<u16> {
        let next = state.next();
        if state.low_bits(next) == 0 && state.top_bit(word) == state.top_bit(next) {
            None
        } else {
            Some(word)
        }
    }

    fn boundary(state: &mut Counter, _written: &[u32]) {
        state.advance();
    }
}
