// Common divisors.
ghost use Rattle.std.specs.Prelude.{◌≡◌};
ghost use Rattle.std.specs.Int.{IsGcd};
ghost use Rattle.cdc_num.specs.Divisors.{gcd, divides};

/// The greatest common divisor; that of 0 and 0 is 0.
pub fn gcd(a: u128, b: u128) -> u128
    ensures value { result ≡ gcd a b }
    ensures greatest { IsGcd a b result }
{
    let mut x = a;
    let mut y = b;
    while y != 0 {
        let rest = x % y;
        x = y;
        y = rest;
    }
    x
}

/// Whether `d` divides `n`; 0 divides 0 alone.
pub fn divides(d: u128, n: u128) -> bool
    ensures { result ≡ divides d n }
{
    if d == 0 { n == 0 } else { n % d == 0 }
}
