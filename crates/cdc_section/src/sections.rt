// The section of a reference.
ghost use Rattle.std.specs.Prelude.{◌≡◌, ◌≤◌, ◌^◌, ◌+ℤ◌, ◌-ℤ◌, nat_abs, Some, IfOk};
ghost use Rattle.cdc_prog.specs.Affine.{IsSmall, with_some, form};
ghost use Rattle.cdc_prog.specs.Translation.{expr_of, exprs_of};
ghost use Rattle.cdc_prog.specs.Sections.{values_of, triplet_of, section, HoldsNamed};

use crate::triplets::{cut, stride, whole_extent};
use cdc_affine::{Affine, Index, Scope, add, form_of, wide_span};
use cdc_base::{List, NoMemory};
use cdc_num::Triplet;
use cdc_prog::{Dim, Expr};
use std::alloc::Global;

// A value of a form as a position: less the lower bound.
fn moved(sum: i128, rest: i64, low: i64) -> i128
    requires { nat_abs sum ≤ 2 ^ 124 }
    ensures { result ≡ (sum +ℤ rest) -ℤ low }
{
    sum + rest as i128 - low as i128
}

// The positions of a form's values. A form of more terms than an interval of 128 bits holds is one for which there is no
// memory.
fn positions_of(indexes: &[Index], d: Dim, form: &Affine) -> Result<Triplet, NoMemory>
    requires { IsSmall form.now }
    ensures { IfOk result (λ t. t ≡ triplet_of d (values_of indexes.now form.now)) }
{
    let terms = form.terms.as_slice();
    if terms.len() > 1 << 30 {
        return Err(NoMemory);
    }
    match wide_span(indexes, terms) {
        None => Ok(whole_extent(d.extent)),
        Some(i) => {
            let lo = moved(i.lo, form.rest, d.low);
            let hi = moved(i.hi, form.rest, d.low);
            Ok(cut(d.extent, lo, hi, stride(indexes, terms).max(1)))
        }
    }
}

fn triplet_of(alloc: Global, e: &Expr, d: Dim, scope: &Scope) -> Result<Triplet, NoMemory>
    ensures { IfOk result (λ t. t ≡ triplet_of d (with_some (form scope.now (expr_of e.now)) (values_of scope.now.indexes))) }
{
    match form_of(alloc, e, scope)? {
        None => Ok(whole_extent(d.extent)),
        Some(f) => positions_of(scope.indexes.as_slice(), d, &f),
    }
}

fn triplets(
    alloc: Global,
    subs: &[Expr],
    dims: &[Dim],
    scope: &Scope,
) -> Result<List<Triplet>, NoMemory>
    ensures { IfOk result (λ ts. ts ≡ section scope.now (exprs_of subs.now) dims.now) }
{
    let mut out = List::new(alloc);
    let mut rest = dims;
    for e in subs {
        let [d, more @ ..] = rest else {
            return Ok(out);
        };
        add(&mut out, triplet_of(alloc, e, *d, scope)?)?;
        rest = more;
    }
    Ok(out)
}

/// The section of a reference with these subscripts: for each dimension the positions, from 0, that its subscript can
/// name where the indexes of the scope lie in their ranges. Where the subscript has no affine form, or one of its indexes
/// no range, it is the whole extent.
///
/// # Errors
///
/// Memory ran out.
pub fn section_of(
    alloc: Global,
    subs: &List<Expr>,
    dims: &List<Dim>,
    scope: &Scope,
) -> Result<List<Triplet>, NoMemory>
    ensures value { IfOk result (λ ts. ts ≡ section scope.now (exprs_of subs.now) dims.now) }
    ensures named { IfOk result (HoldsNamed scope.now (exprs_of subs.now) dims.now) }
{
    triplets(alloc, subs.as_slice(), dims.as_slice(), scope)
}
