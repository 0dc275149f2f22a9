// The intervals of sums of terms.
ghost use Rattle.std.specs.Prelude.{◌≡◌, ◌≤◌, ◌^◌, ◌*◌, true, length, IfSome};
ghost use Rattle.cdc_num.specs.Intervals.{IsBelow, times};
ghost use Rattle.cdc_prog.specs.Affine.{is_small, are_small};
ghost use Rattle.cdc_prog.specs.Dependence.{range_in, span};

use crate::forms::index_in;
use cdc_num::Interval;
use cdc_prog::{Index, Range, Term, Var};

/// The range of an index, where it has one.
pub fn range_in(indexes: &[Index], v: Var) -> Option<Range>
    ensures { result ≡ range_in indexes.now v }
{
    match index_in(indexes, v) {
        Some(i) => i.range,
        None => None,
    }
}

// The interval of a term.
fn stretch(a: i64, r: Range) -> Interval
    requires { is_small a ≡ true }
    ensures value { result ≡ times a r.lo r.hi }
    ensures bound { IsBelow (2 ^ 94) result }
{
    Interval::times(a, r.lo, r.hi)
}

/// The interval of a sum of terms, where each index has a range.
fn span(indexes: &[Index], terms: &[Term]) -> Option<Interval>
    requires small { are_small terms.now ≡ true }
    requires few { length terms.now ≤ 2 ^ 30 }
    ensures value { result ≡ span indexes.now terms.now }
    ensures bound { IfSome result (IsBelow (length terms.now * 2 ^ 94)) }
{
    match terms {
        [] => Some(Interval { lo: 0, hi: 0 }),
        [t, rest @ ..] => {
            let r = range_in(indexes, t.var)?;
            let i = span(indexes, rest)?;
            Some(stretch(t.times, r).plus(i))
        }
    }
}

/// The same for few terms, which an interval of 128 bits holds.
#[tactic(auto, using(crate::proofs::Bounds::wide_of))]
pub fn wide_span(indexes: &[Index], terms: &[Term]) -> Option<Interval>
    requires small { are_small terms.now ≡ true }
    requires few { length terms.now ≤ 2 ^ 30 }
    ensures value { result ≡ span indexes.now terms.now }
    ensures bound { IfSome result (IsBelow (2 ^ 124)) }
{
    span(indexes, terms)
}
