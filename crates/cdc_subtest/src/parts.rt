// Parts of forms.
ghost use Rattle.std.specs.Prelude.{◌≡◌, ◌≤◌, ◌<◌, ◌^◌, ◌*◌, ◌+◌, ◌+ℤ◌, ◌-ℤ◌, ◌*ℤ◌, true, length, nat_abs, IfOk};
ghost use Rattle.cdc_prog.specs.Affine.{are_small};
ghost use Rattle.cdc_prog.specs.Dependence.{moving, still, same_number, same_terms, common, is_own, own_times, others};

use cdc_affine::{Scope, Term, add, is_index, same_var};
use cdc_base::{List, NoMemory};
use cdc_num::gcd;
use cdc_prog::Var;
use std::alloc::Global;

/// The terms of indexes.
pub fn moving(alloc: Global, scope: &Scope, terms: &[Term]) -> Result<List<Term>, NoMemory>
    ensures { IfOk result (λ l. l ≡ moving scope.now terms.now) }
{
    let mut out = List::new(alloc);
    for t in terms {
        if is_index(scope, t.var) {
            add(&mut out, *t)?;
        }
    }
    Ok(out)
}

/// The terms of fixed scalars.
pub fn still(alloc: Global, scope: &Scope, terms: &[Term]) -> Result<List<Term>, NoMemory>
    ensures { IfOk result (λ l. l ≡ still scope.now terms.now) }
{
    let mut out = List::new(alloc);
    for t in terms {
        if !is_index(scope, t.var) {
            add(&mut out, *t)?;
        }
    }
    Ok(out)
}

/// Whether a term is one of the index of the DOALL.
pub fn is_own(t: Term) -> bool
    ensures { result ≡ is_own t }
{
    same_var(t.var, Var::Slot(0))
}

/// The terms of the other indexes.
pub fn others(alloc: Global, terms: &[Term]) -> Result<List<Term>, NoMemory>
    ensures { IfOk result (λ l. l ≡ others terms.now) }
{
    let mut out = List::new(alloc);
    for t in terms {
        if !is_own(*t) {
            add(&mut out, *t)?;
        }
    }
    Ok(out)
}

/// Whether two numbers are equal.
pub fn same_number(a: i64, b: i64) -> bool
    ensures { result ≡ same_number a b }
{
    a == b
}

/// Whether two lists have the same terms.
pub fn same_terms(ts: &[Term], us: &[Term]) -> bool
    ensures { result ≡ same_terms ts.now us.now }
{
    match ts {
        [] => us.is_empty(),
        [t, rest @ ..] => match us {
            [] => false,
            [u, more @ ..] => {
                same_var(t.var, u.var) && same_number(t.times, u.times) && same_terms(rest, more)
            }
        },
    }
}

/// The greatest common divisor of the coefficients.
pub fn common(terms: &[Term]) -> u128
    ensures { result ≡ common terms.now }
{
    match terms {
        [] => 0,
        [t, rest @ ..] => {
            let d = common(rest);
            gcd(t.times.unsigned_abs() as u128, d)
        }
    }
}

/// The coefficient of the index of the DOALL.
pub fn own_times(terms: &[Term]) -> i64
    requires small { are_small terms.now ≡ true }
    requires few { length terms.now ≤ 2 ^ 30 }
    ensures value { result ≡ own_times terms.now }
    ensures bound { nat_abs result ≤ length terms.now * 2 ^ 31 }
{
    match terms {
        [] => 0,
        [t, rest @ ..] => {
            let n = own_times(rest);
            if is_own(*t) { t.times + n } else { n }
        }
    }
}
