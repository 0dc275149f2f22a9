//! Where a text ends.

ghost use Rattle.std.specs.Prelude.{◌≡◌, ◌≤◌, ◌<◌, ◌+◌, ◌^◌, false, length, slice_index, IfSome};
ghost use Rattle.cdc_token.specs.Cutting as spec;

/// The first byte, or 0 where there is none.
fn front_byte(z: &[u8]) -> u8
    ensures { result ≡ slice_index z.now 0 }
{
    if 0 < z.len() { z[0] } else { 0 }
}

/// How many bytes a text has, its quotes included, where `z` follows the first quote.
pub fn text_len(quote: u8, mut z: &[u8]) -> Option<usize>
    requires { length z.now < 2 ^ 62 }
    ensures value { result ≡ spec.closing quote false 1 z.entry.now }
    ensures within { IfSome result (λ end. (1 ≤ end) × (end ≤ length z.entry.now + 1)) }
{
    let mut is_second = false;
    let mut at = 1;
    while let [b, rest @ ..] = z {
        if !is_second && *b == quote && front_byte(rest) != quote {
            return Some(at + 1);
        }
        is_second = !is_second && *b == quote;
        at += 1;
        z = rest;
    }
    None
}
