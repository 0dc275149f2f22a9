// The iterations of a DOALL: how many there are, and their indexes.
ghost use Rattle.std.specs.Prelude.{◌≡◌, pos, ◌+ℤ◌, ◌*ℤ◌, IfOk, IsTrue};
ghost use Rattle.cdc_prog.specs.Trips.{HasIndexes, few_of};
ghost use Rattle.cdc_prog.specs.Value.{few, is_value, trips};

use crate::operators::turns;
use crate::program::FaultKind;

// As many iterations as a DOALL may have.
fn few(count: u128) -> Result<u32, FaultKind>
    ensures { result ≡ few count }
{
    if count > 1 << 20 {
        return Err(FaultKind::TripTooLarge);
    }
    Ok(count as u32)
}

/// The number of iterations of a DOALL. The index of each is a value of 64 bits.
///
/// # Errors
///
/// `ZeroStep` where the step is 0, `TripTooLarge` where there are more than `2^20`.
pub fn iterations(from: i64, to: i64, by: i64) -> Result<u32, FaultKind>
    ensures count { result ≡ few_of (trips from to by) }
    ensures indexes { IfOk result (λ count. HasIndexes count from by) }
{
    turns(from, to, by).and_then(few)
}

// How far iteration k is from the first.
fn distance(by: i64, k: u32) -> i128
    ensures { result ≡ pos k *ℤ by }
{
    k as i128 * by as i128
}

/// The index of iteration `k`, counted from 0.
pub fn index_of(from: i64, by: i64, k: u32) -> i64
    requires { IsTrue (is_value (from +ℤ (pos k *ℤ by))) }
    ensures { result ≡ from +ℤ (pos k *ℤ by) }
{
    narrow(from as i128 + distance(by, k))
}

// A value in 64 bits.
fn narrow(value: i128) -> i64
    requires { IsTrue (is_value value) }
    ensures { result ≡ value }
{
    value as i64
}
