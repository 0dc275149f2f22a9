// The pairs of references of a DOALL.
ghost use Rattle.std.specs.Prelude.{◌≡◌, map};
ghost use Rattle.cdc_prog.specs.Dependence.{failing_with, first_failing};
ghost use Rattle.cdc_subtest.specs.Seen.{seen_of, pair_fails, places_of, ArePassed};

use crate::alike::has_like;
use crate::references::Reference;
use crate::rules::some_apart;
use cdc_affine::same_var;
use cdc_base::Place;

fn pair_fails(step: Option<i64>, p: &Reference, q: &Reference) -> bool
    ensures { result ≡ pair_fails step (seen_of p.now) (seen_of q.now) }
{
    same_var(p.at.var, q.at.var)
        && (p.writes || q.writes)
        && !some_apart(step, p.subs.as_slice(), q.subs.as_slice())
}

fn failing_with(step: Option<i64>, p: &Reference, qs: &[Reference]) -> Option<(Place, Place)>
    ensures { result ≡ places_of (failing_with (pair_fails step) (seen_of p.now) (map seen_of qs.now)) }
{
    for q in qs {
        if pair_fails(step, p, q) {
            return Some((p.at.place, q.at.place));
        }
    }
    None
}

// A reference that is like an earlier one fails with none of the rest, where the earlier one does not.
fn failing_from(
    step: Option<i64>,
    earlier: &[Reference],
    p: &Reference,
    rest: &[Reference],
) -> Option<(Place, Place)>
    requires { ArePassed step (map seen_of earlier.now) (map seen_of rest.now) }
    ensures { result ≡ places_of (failing_with (pair_fails step) (seen_of p.now) (map seen_of rest.now)) }
{
    if has_like(p, earlier) {
        None
    } else {
        failing_with(step, p, rest)
    }
}

/// The places of the first failing pair.
pub fn first_failing(step: Option<i64>, ps: &[Reference]) -> Option<(Place, Place)>
    ensures { result ≡ places_of (first_failing (pair_fails step) (map seen_of ps.now)) }
{
    for i in 0..ps.len() {
        if let Some(pair) = failing_from(step, &ps[..i], &ps[i], &ps[i..]) {
            return Some(pair);
        }
    }
    None
}
