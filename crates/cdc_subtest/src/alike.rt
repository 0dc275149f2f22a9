// References that the rules cannot tell from one another.
ghost use Rattle.std.specs.Prelude.{◌≡◌, true, map};
ghost use Rattle.cdc_subtest.specs.Sketches.{glance_of, glance_in};
ghost use Rattle.cdc_subtest.specs.Seen.{IsLike, HasLike, seen_of};

use crate::parts::same_terms;
use crate::references::Reference;
use crate::sketch::Sketch;
use cdc_affine::same_var;
use cdc_num::Interval;

fn same_interval(x: Option<Interval>, y: Option<Interval>) -> bool
    ensures { result ≡ true → x ≡ y }
{
    match x {
        None => y.is_none(),
        Some(i) => match y {
            None => false,
            Some(j) => i.lo == j.lo && i.hi == j.hi,
        },
    }
}

fn same_numbers(x: &Sketch, y: &Sketch) -> bool
    ensures { result ≡ true → (x.now.rest ≡ y.now.rest) × (x.now.own ≡ y.now.own) × (x.now.steady ≡ y.now.steady) × (x.now.common ≡ y.now.common) }
{
    x.rest == y.rest && x.own == y.own && x.steady == y.steady && x.common == y.common
}

fn same_intervals(x: &Sketch, y: &Sketch) -> bool
    ensures { result ≡ true → (x.now.whole ≡ y.now.whole) × (x.now.others ≡ y.now.others) }
{
    same_interval(x.whole, y.whole) && same_interval(x.others, y.others)
}

fn same_sketch(x: &Sketch, y: &Sketch) -> bool
    ensures { result ≡ true → glance_of x.now ≡ glance_of y.now }
{
    same_numbers(x, y) && same_intervals(x, y) && same_terms(x.still.as_slice(), y.still.as_slice())
}

fn same_form(x: &Option<Sketch>, y: &Option<Sketch>) -> bool
    ensures { result ≡ true → glance_in x.now ≡ glance_in y.now }
{
    match x {
        None => y.is_none(),
        Some(x) => match y {
            None => false,
            Some(y) => same_sketch(x, y),
        },
    }
}

fn same_forms(xs: &[Option<Sketch>], ys: &[Option<Sketch>]) -> bool
    ensures { result ≡ true → map glance_in xs.now ≡ map glance_in ys.now }
{
    match xs {
        [] => ys.is_empty(),
        [x, xs @ ..] => match ys {
            [] => false,
            [y, ys @ ..] => same_form(x, y) && same_forms(xs, ys),
        },
    }
}

// The first constants are looked at beside the rest, since the forms lie elsewhere in memory.
fn is_like(p: &Reference, q: &Reference) -> bool
    ensures { result ≡ true → IsLike (seen_of p.now) (seen_of q.now) }
{
    p.writes == q.writes
        && p.first == q.first
        && same_var(p.at.var, q.at.var)
        && same_forms(p.subs.as_slice(), q.subs.as_slice())
}

/// Whether one of the others is of the same array and forms, and writes where this one does.
pub fn has_like(p: &Reference, others: &[Reference]) -> bool
    ensures { result ≡ true → HasLike (seen_of p.now) (map seen_of others.now) }
{
    let mut rest = others;
    while let [q, more @ ..] = rest {
        if is_like(p, q) {
            return true;
        }
        rest = more;
    }
    false
}
