// Intervals of whole numbers, computed in 128 bits.
ghost use Rattle.std.specs.Prelude.{◌≡◌, ◌≤◌, ◌<◌, ◌^◌, ◌+ℤ◌, ◌-ℤ◌, ◌*ℤ◌, nat_abs};
ghost use Rattle.cdc_num.specs.Intervals.{IsBelow, times, plus, minus, leaves_out_zero, lies_within};

/// The whole numbers from `lo` to `hi`.
#[derive(Clone, Copy, Debug, PartialEq, Eq)]
pub struct Interval {
    pub lo: i128,
    pub hi: i128,
}

fn product(a: i64, b: i64) -> i128
    requires { nat_abs a < 2 ^ 31 }
    ensures value { result ≡ a *ℤ b }
    ensures bound { nat_abs result ≤ 2 ^ 94 }
{
    a as i128 * b as i128
}

fn sum(x: i128, y: i128) -> i128
    requires left { nat_abs x ≤ 2 ^ 125 }
    requires right { nat_abs y ≤ 2 ^ 125 }
    ensures { result ≡ x +ℤ y }
{
    x + y
}

fn gap(x: i128, y: i128, d: i64) -> i128
    requires left { nat_abs x ≤ 2 ^ 124 }
    requires right { nat_abs y ≤ 2 ^ 124 }
    ensures { result ≡ (x -ℤ y) +ℤ d }
{
    x - y + d as i128
}

impl Interval {
    /// The products of a number below 2^31 in absolute value with the numbers from `lo` to `hi`.
    pub fn times(a: i64, lo: i64, hi: i64) -> Interval
        requires { nat_abs a < 2 ^ 31 }
        ensures value { result ≡ times a lo hi }
        ensures bound { IsBelow (2 ^ 94) result }
    {
        if a < 0 {
            Interval {
                lo: product(a, hi),
                hi: product(a, lo),
            }
        } else {
            Interval {
                lo: product(a, lo),
                hi: product(a, hi),
            }
        }
    }

    /// The sums of a number of each.
    pub fn plus(self, other: Interval) -> Interval
        requires left { IsBelow (2 ^ 125) self }
        requires right { IsBelow (2 ^ 125) other }
        ensures { result ≡ plus self other }
    {
        Interval {
            lo: sum(self.lo, other.lo),
            hi: sum(self.hi, other.hi),
        }
    }

    /// The numbers of this one less those of the other, and `d` more.
    pub fn minus(self, other: Interval, d: i64) -> Interval
        requires left { IsBelow (2 ^ 124) self }
        requires right { IsBelow (2 ^ 124) other }
        ensures { result ≡ minus self other d }
    {
        Interval {
            lo: gap(self.lo, other.hi, d),
            hi: gap(self.hi, other.lo, d),
        }
    }

    /// Whether 0 is none of its numbers, where it has some.
    pub fn leaves_out_zero(self) -> bool
        ensures { result ≡ leaves_out_zero self }
    {
        self.lo > 0 || self.hi < 0
    }

    /// Whether its ends lie strictly between `-m` and `m`.
    pub fn lies_within(self, m: u128) -> bool
        requires { m ≤ 2 ^ 126 }
        ensures { result ≡ lies_within m self }
    {
        let bound = m as i128;
        -bound < self.lo && self.hi < bound
    }
}
