// The positions of one dimension that a subscript names.
ghost use Rattle.std.specs.Prelude.{◌≡◌, ◌-◌, ◌<◌, min};
ghost use Rattle.cdc_prog.specs.Sections.{gap_of, stride, nothing, whole_extent, first_inside, from_to, cut};

use cdc_affine::{Index, Range, Term, range_in};
use cdc_num::{Triplet, gcd};

fn gap_of(range: Option<Range>, times: i64) -> u128
    ensures { result ≡ gap_of range times }
{
    match range {
        None => 0,
        Some(r) => (times as i128 * r.step as i128).unsigned_abs(),
    }
}

/// The greatest common divisor of the products of coefficients and steps.
pub fn stride(indexes: &[Index], terms: &[Term]) -> u128
    ensures { result ≡ stride indexes.now terms.now }
{
    match terms {
        [] => 0,
        [t, rest @ ..] => {
            let gap = gap_of(range_in(indexes, t.var), t.times);
            gcd(gap, stride(indexes, rest))
        }
    }
}

fn nothing() -> Triplet
    ensures { result ≡ nothing }
{
    Triplet {
        lo: 1,
        hi: 0,
        step: 1,
    }
}

/// Each position of a dimension.
pub fn whole_extent(extent: u32) -> Triplet
    ensures { result ≡ whole_extent extent }
{
    Triplet {
        lo: 0,
        hi: extent.saturating_sub(1),
        step: 1,
    }
}

fn first_inside(lo: i128, step: u128) -> u128
    requires { 0 < step }
    ensures { result ≡ first_inside lo step }
{
    if lo < 0 {
        step - 1 - (-(lo + 1)) as u128 % step
    } else {
        lo as u128
    }
}

fn from_to(lo: u128, hi: u32, step: u128) -> Triplet
    ensures { result ≡ from_to lo hi step }
{
    if (hi as u128) < lo {
        nothing()
    } else {
        Triplet {
            lo: lo as u32,
            hi,
            step: step.min(1 << 22) as u32,
        }
    }
}

fn last_inside(hi: u128, extent: u32) -> u32
    ensures { result ≡ min hi (extent - 1) }
{
    hi.min(extent.saturating_sub(1) as u128) as u32
}

/// What is left of `lo` and each further `step` up to `hi` at the positions of an extent. A step over 2^22 becomes 2^22
/// once the rest is cut, which changes none of them.
pub fn cut(extent: u32, lo: i128, hi: i128, step: u128) -> Triplet
    requires { 0 < step }
    ensures { result ≡ cut extent lo hi step }
{
    if hi < 0 {
        nothing()
    } else {
        from_to(
            first_inside(lo, step),
            last_inside(hi as u128, extent),
            step,
        )
    }
}
