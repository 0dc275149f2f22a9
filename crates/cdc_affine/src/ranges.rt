// The ranges of loops with constant controls.
ghost use Rattle.std.specs.Prelude.{◌≡◌, ◌≤◌, ◌<◌, ◌^◌, ◌*◌, ◌-◌, pos, ◌+ℤ◌, ◌*ℤ◌, ◌≤ℤ◌, ◌<ℤ◌, nat_abs, Ok, IfSome};
ghost use Rattle.std.specs.Int.RustNames.{FitsSigned};
ghost use Rattle.cdc_prog.specs.Translation.{control_of};
ghost use Rattle.cdc_prog.specs.Value.{trips};
ghost use Rattle.cdc_prog.specs.Dependence.{spread, spread_of, range_of};
ghost use Rattle.cdc_prog.specs.Sections.{IsStepped};

use crate::constants::constant;
use cdc_prog::{Control, Range, turns};

fn turned(last: u128, m3: i64) -> i128
    requires few { last ≤ 2 ^ 65 }
    requires room { last * nat_abs m3 ≤ 2 ^ 65 }
    ensures { result ≡ pos last *ℤ m3 }
{
    last as i128 * m3 as i128
}

fn moved(m1: i64, by: i128) -> i64
    requires low { pos 0 ≤ℤ ((m1 +ℤ by) +ℤ pos (2 ^ 63)) }
    requires high { (m1 +ℤ by) <ℤ pos (2 ^ 63) }
    ensures { result ≡ m1 +ℤ by }
{
    (m1 as i128 + by) as i64
}

// The value of the variable in its last turn.
fn last_value(m1: i64, m3: i64, last: u128) -> i64
    requires few { last ≤ 2 ^ 65 }
    requires low { pos 0 ≤ℤ ((m1 +ℤ (pos last *ℤ m3)) +ℤ pos (2 ^ 63)) }
    requires high { (m1 +ℤ (pos last *ℤ m3)) <ℤ pos (2 ^ 63) }
    requires room { last * nat_abs m3 ≤ 2 ^ 65 }
    ensures { result ≡ m1 +ℤ (pos last *ℤ m3) }
{
    moved(m1, turned(last, m3))
}

// The values from the first to the last.
fn spread(m1: i64, m3: i64, last: u128) -> Range
    requires few { last ≤ 2 ^ 65 }
    requires low { pos 0 ≤ℤ ((m1 +ℤ (pos last *ℤ m3)) +ℤ pos (2 ^ 63)) }
    requires high { (m1 +ℤ (pos last *ℤ m3)) <ℤ pos (2 ^ 63) }
    requires room { last * nat_abs m3 ≤ 2 ^ 65 }
    requires step { nat_abs m3 < 2 ^ 63 }
    ensures { result ≡ spread m1 m3 last }
{
    let other = last_value(m1, m3, last);
    if m3 < 0 {
        Range {
            lo: other,
            hi: m1,
            step: -m3,
        }
    } else {
        Range {
            lo: m1,
            hi: other,
            step: m3,
        }
    }
}

fn range_from(m1: i64, m2: i64, m3: i64) -> Option<Range>
    ensures { result ≡ spread_of m1 m2 m3 }
{
    match turns(m1, m2, m3) {
        Err(_) => None,
        Ok(n) => {
            if m3.unsigned_abs() < 1 << 63 {
                Some(spread(m1, m3, n.saturating_sub(1)))
            } else {
                None
            }
        }
    }
}

/// The range of a loop whose controls are constant, which ends after whole steps.
pub fn range_of(k: &Control) -> Option<Range>
    ensures value { result ≡ range_of (control_of k.now) }
    ensures stepped { IfSome result IsStepped }
{
    let m1 = constant(&k.from)?;
    let m2 = constant(&k.to)?;
    let m3 = constant(&k.by)?;
    range_from(m1, m2, m3)
}
