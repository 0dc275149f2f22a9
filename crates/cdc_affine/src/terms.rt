// Sums of terms, in the order of their variables.
ghost use Rattle.std.specs.Prelude.{◌≡◌, ◌≤◌, ◌^◌, [], ◌∷◌, ◌++◌, ◌*ℤ◌, ◌+ℤ◌, nat_abs, true, OnOk, IfOk};
ghost use Rattle.cdc_prog.specs.Affine.{order_of, order, same_var, kept, sum_terms, scaled, is_small, are_small};

use cdc_base::{List, NoMemory};
use cdc_prog::{Term, Var};
use std::alloc::Global;
use std::cmp::Ordering;

/// Adds an item at the end.
pub fn add<T: Drop>(items: &mut List<T>, item: T) -> Result<(), NoMemory>
    ensures { OnOk result (items.new ≡ items.old ++ item ∷ []) }
{
    match items.push(item) {
        Ok(()) => Ok(()),
        Err(_) => Err(NoMemory),
    }
}

fn order_of(m: u32, n: u32) -> Ordering
    ensures { result ≡ order_of m n }
{
    if m < n {
        Ordering::Less
    } else if n < m {
        Ordering::Greater
    } else {
        Ordering::Equal
    }
}

/// Variables in the order of objects, dummies, slots and their numbers.
pub fn order(a: Var, b: Var) -> Ordering
    ensures { result ≡ order a b }
{
    match (a, b) {
        (Var::Object(m), Var::Object(n)) => order_of(m, n),
        (Var::Object(_), _) => Ordering::Less,
        (Var::Dummy(_), Var::Object(_)) => Ordering::Greater,
        (Var::Dummy(m), Var::Dummy(n)) => order_of(m, n),
        (Var::Dummy(_), Var::Slot(_)) => Ordering::Less,
        (Var::Slot(m), Var::Slot(n)) => order_of(m, n),
        (Var::Slot(_), _) => Ordering::Greater,
    }
}

/// Whether two variables are one.
pub fn same_var(a: Var, b: Var) -> bool
    ensures { result ≡ same_var a b }
{
    match (a, b) {
        (Var::Object(m), Var::Object(n)) => m == n,
        (Var::Dummy(m), Var::Dummy(n)) => m == n,
        (Var::Slot(m), Var::Slot(n)) => m == n,
        _ => false,
    }
}

/// Below 2^31 in absolute value.
pub fn is_small(z: i64) -> bool
    ensures { result ≡ is_small z }
{
    z.unsigned_abs() < 1 << 31
}

/// Whether each coefficient is.
pub fn are_small(terms: &[Term]) -> bool
    ensures { result ≡ are_small terms.now }
{
    for t in terms {
        if !is_small(t.times) {
            return false;
        }
    }
    true
}

/// The product of two small numbers.
pub fn product(a: i64, b: i64) -> i64
    requires left { is_small a ≡ true }
    requires right { is_small b ≡ true }
    ensures { result ≡ a *ℤ b }
{
    a * b
}

/// The sum of two small numbers.
pub fn sum(a: i64, b: i64) -> i64
    requires left { is_small a ≡ true }
    requires right { is_small b ≡ true }
    ensures { result ≡ a +ℤ b }
{
    a + b
}

// A term at the end, unless its coefficient is 0.
fn keep(out: &mut List<Term>, var: Var, times: i64) -> Result<(), NoMemory>
    ensures { OnOk result (out.new ≡ out.old ++ kept var times []) }
{
    if times == 0 {
        return Ok(());
    }
    add(out, Term { var, times })
}

fn add_all(out: &mut List<Term>, terms: &[Term]) -> Result<(), NoMemory>
    ensures { OnOk result (out.new ≡ out.old ++ terms.now) }
{
    for t in terms {
        add(out, *t)?;
    }
    Ok(())
}

/// The terms times a number.
pub fn scaled(alloc: Global, k: i64, terms: &[Term]) -> Result<List<Term>, NoMemory>
    requires small { is_small k ≡ true }
    requires terms { are_small terms.now ≡ true }
    ensures { IfOk result (λ l. l ≡ scaled k terms.now) }
{
    let mut out = List::new(alloc);
    for t in terms {
        keep(&mut out, t.var, product(k, t.times))?;
    }
    Ok(out)
}

/// The sum of two sums of terms.
pub fn sum_terms(alloc: Global, ts: &[Term], us: &[Term]) -> Result<List<Term>, NoMemory>
    requires left { are_small ts.now ≡ true }
    requires right { are_small us.now ≡ true }
    ensures { IfOk result (λ l. l ≡ sum_terms ts.now us.now) }
{
    let mut out = List::new(alloc);
    let mut i = 0;
    let mut j = 0;
    while i < ts.len() && j < us.len() {
        let t = ts[i];
        let u = us[j];
        match order(t.var, u.var) {
            Ordering::Less => {
                add(&mut out, t)?;
                i += 1;
            }
            Ordering::Equal => {
                keep(&mut out, u.var, sum(t.times, u.times))?;
                i += 1;
                j += 1;
            }
            Ordering::Greater => {
                add(&mut out, u)?;
                j += 1;
            }
        }
    }
    add_all(&mut out, &ts[i..])?;
    add_all(&mut out, &us[j..])?;
    Ok(out)
}
