//! The values of names, numbers and texts.

ghost use Rattle.std.specs.Prelude.{◌≡◌, ◌≤◌, ◌<◌, ◌+◌, ◌*◌, ◌^◌, ◌∷◌, ◌++◌, ℕ, List, [], length, map, pos, false, not, OnOk, IfOk, MatchOption};
ghost use Rattle.std.specs.List.{position};
ghost use Rattle.std.specs.Char.{to_ascii_uppercase};
ghost use Rattle.cdc_token.specs.Bytes as bytes;
ghost use Rattle.cdc_token.specs.Values as spec;

use crate::bytes::is_shown;
use std::alloc::{AllocError, Global};

/// A name in upper case.
pub fn upper_case(alloc: Global, name: &[u8]) -> Result<Vec<u8>, AllocError>
    ensures { IfOk result (λ v. v.items ≡ map to_ascii_uppercase name.now) }
{
    name.iter().map(|b| b.to_ascii_uppercase()).collect(alloc)
}

/// The number that digits write, where it is below 2^63.
pub fn number(digits: &[u8]) -> Option<i64>
    ensures { MatchOption result (2 ^ 63 ≤ spec.number_after 0 digits.now) (λ n. (n ≡ pos (spec.number_after 0 digits.now)) × (spec.number_after 0 digits.now < 2 ^ 63)) }
{
    let mut value: u128 = 0;
    for b in digits {
        value = value * 10 + u128::from(b.saturating_sub(b'0'));
        if 1 << 63 <= value {
            return None;
        }
    }
    Some(value as i64)
}

/// Each byte is kept that is not the second of two quotes.
fn keep(out: &mut Vec<u8>, is_second: bool, b: u8) -> Result<(), AllocError>
    ensures { OnOk result (out.new.items ≡ out.old.items ++ spec.kept is_second b) }
{
    if !is_second {
        out.push(b)?;
    }
    Ok(())
}

/// What stands between the quotes of a text, without the second of two quotes.
pub fn without_seconds(alloc: Global, quote: u8, inner: &[u8]) -> Result<Vec<u8>, AllocError>
    ensures { IfOk result (λ v. v.items ≡ spec.halved quote false inner.now) }
{
    let mut out = Vec::new(alloc);
    let mut is_second = false;
    for b in inner {
        keep(&mut out, is_second, *b)?;
        is_second = !is_second && *b == quote;
    }
    Ok(out)
}

/// How many bytes stand before the first that may not stand in a text.
pub fn bad_byte(text: &[u8]) -> Option<usize>
    ensures { result ≡ position (λ b. not (bytes.is_shown b)) text.now }
{
    text.iter().position(|b| !is_shown(*b))
}
