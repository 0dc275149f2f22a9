// The rules that tell two forms apart, on their sketches.
ghost use Rattle.std.specs.Prelude.{◌≡◌, ◌≤◌, ◌^◌, ◌*ℤ◌, ◌-ℤ◌, nat_abs, map};
ghost use Rattle.cdc_subtest.specs.Sketches.{glance_of, glance_in, steps_apart, constants_apart, divisors_apart, ranges_apart, strides_apart, glances_apart, one_apart, some_apart};

use crate::parts::{same_number, same_terms};
use crate::sketch::Sketch;
use cdc_num::{divides, gcd};

// The difference of two constants.
fn gap(x: &Sketch, y: &Sketch) -> i64
    ensures { result ≡ x.now.rest -ℤ y.now.rest }
{
    x.rest - y.rest
}

fn constants_apart(x: &Sketch, y: &Sketch) -> bool
    ensures { result ≡ constants_apart (glance_of x.now) (glance_of y.now) }
{
    x.steady && y.steady && gap(x, y) != 0
}

fn divisors_apart(x: &Sketch, y: &Sketch) -> bool
    ensures { result ≡ divisors_apart (glance_of x.now) (glance_of y.now) }
{
    !divides(gcd(x.common, y.common), gap(x, y).unsigned_abs() as u128)
}

fn ranges_apart(x: &Sketch, y: &Sketch) -> bool
    ensures { result ≡ ranges_apart (glance_of x.now) (glance_of y.now) }
{
    match x.whole {
        None => false,
        Some(i) => match y.whole {
            None => false,
            Some(j) => i.minus(j, gap(x, y)).leaves_out_zero(),
        },
    }
}

fn product(a: i64, b: i64) -> i128
    ensures value { result ≡ a *ℤ b }
    ensures bound { nat_abs result ≤ 2 ^ 126 }
{
    a as i128 * b as i128
}

fn steps_apart(m3: i64, x: &Sketch, y: &Sketch) -> bool
    ensures { result ≡ steps_apart m3 (glance_of x.now) (glance_of y.now) }
{
    match x.others {
        None => false,
        Some(i) => match y.others {
            None => false,
            Some(j) => i
                .minus(j, gap(x, y))
                .lies_within(product(x.own, m3).unsigned_abs()),
        },
    }
}

fn strides_apart(step: Option<i64>, x: &Sketch, y: &Sketch) -> bool
    ensures { result ≡ strides_apart step (glance_of x.now) (glance_of y.now) }
{
    match step {
        None => false,
        Some(m3) => m3 != 0 && x.own != 0 && same_number(x.own, y.own) && steps_apart(m3, x, y),
    }
}

// The rules in the order of their costs: a divisor is asked for where no other rule holds.
#[tactic(auto, using(crate::proofs::Orders::by_cost))]
fn sketches_apart(step: Option<i64>, x: &Sketch, y: &Sketch) -> bool
    ensures { result ≡ glances_apart step (glance_of x.now) (glance_of y.now) }
{
    same_terms(x.still.as_slice(), y.still.as_slice())
        && (constants_apart(x, y)
            || strides_apart(step, x, y)
            || ranges_apart(x, y)
            || divisors_apart(x, y))
}

fn one_apart(step: Option<i64>, x: &Option<Sketch>, y: &Option<Sketch>) -> bool
    ensures { result ≡ one_apart step (glance_in x.now) (glance_in y.now) }
{
    match x {
        None => false,
        Some(x) => match y {
            None => false,
            Some(y) => sketches_apart(step, x, y),
        },
    }
}

/// Whether a rule tells two references to one array apart in some dimension.
pub fn some_apart(step: Option<i64>, xs: &[Option<Sketch>], ys: &[Option<Sketch>]) -> bool
    ensures { result ≡ some_apart step (map glance_in xs.now) (map glance_in ys.now) }
{
    match xs {
        [] => false,
        [x, xs @ ..] => match ys {
            [] => false,
            [y, ys @ ..] => one_apart(step, x, y) || some_apart(step, xs, ys),
        },
    }
}
