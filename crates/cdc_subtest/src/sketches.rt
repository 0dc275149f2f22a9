// The sketches of subscripts.
ghost use Rattle.std.specs.Prelude.{◌≡◌, map, IfOk};
ghost use Rattle.cdc_prog.specs.Affine.{IsSmall};
ghost use Rattle.cdc_prog.specs.Translation.{expr_of, exprs_of};
ghost use Rattle.cdc_subtest.specs.Sketches.{glance, glimpse, glimpses, glance_of, glance_in};

use crate::parts::{common, moving, others, own_times, still};
use crate::sketch::Sketch;
use cdc_affine::{Affine, Scope, form_of, wide_span};
use cdc_base::{List, NoMemory};
use cdc_prog::Expr;
use std::alloc::Global;

// A form of more terms than an interval of 128 bits holds is one for which there is no memory.
#[tactic(auto, using(crate::proofs::Small::moving_small, crate::proofs::Small::others_small, crate::proofs::Small::others_few))]
fn from_form(alloc: Global, scope: &Scope, form: &Affine) -> Result<Sketch, NoMemory>
    requires { IsSmall form.now }
    ensures { IfOk result (λ s. glance_of s ≡ glance scope.now form.now) }
{
    let terms = moving(alloc, scope, form.terms.as_slice())?;
    let ts = terms.as_slice();
    if ts.len() > 1 << 30 {
        return Err(NoMemory);
    }
    let rest = others(alloc, ts)?;
    let still = still(alloc, scope, form.terms.as_slice())?;
    let whole = wide_span(scope.indexes.as_slice(), ts);
    let others = wide_span(scope.indexes.as_slice(), rest.as_slice());
    Ok(Sketch {
        still,
        steady: ts.is_empty(),
        common: common(ts),
        whole,
        own: own_times(ts),
        others,
        rest: form.rest,
    })
}

fn sketch_of(alloc: Global, scope: &Scope, e: &Expr) -> Result<Option<Sketch>, NoMemory>
    ensures { IfOk result (λ o. glance_in o ≡ glimpse scope.now (expr_of e.now)) }
{
    match form_of(alloc, e, scope)? {
        None => Ok(None),
        Some(form) => Ok(Some(from_form(alloc, scope, &form)?)),
    }
}

/// The sketches of subscripts that have a form.
///
/// # Errors
///
/// Memory ran out.
pub fn sketches(
    alloc: Global,
    scope: &Scope,
    subs: &[Expr],
) -> Result<List<Option<Sketch>>, NoMemory>
    ensures { IfOk result (λ l. map glance_in l ≡ glimpses scope.now (exprs_of subs.now)) }
{
    let mut out = Vec::with_capacity(alloc, subs.len())?;
    for e in subs {
        let one = sketch_of(alloc, scope, e)?;
        if out.push(one).is_err() {
            return Err(NoMemory);
        }
    }
    Ok(List::of(out))
}
