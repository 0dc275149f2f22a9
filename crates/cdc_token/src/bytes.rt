//! Classes of bytes.

ghost use Rattle.std.specs.Prelude.{◌≡◌};
ghost use Rattle.cdc_token.specs.Bytes as spec;

/// Space or tab.
pub fn is_blank(b: u8) -> bool
    ensures { result ≡ spec.is_blank b }
{
    b == b' ' || b == b'\t'
}

/// A byte that a name may go on with.
pub fn is_word(b: u8) -> bool
    ensures { result ≡ spec.is_word b }
{
    b.is_ascii_alphanumeric() || b == b'_'
}

/// A byte that begins a text.
pub fn is_quote(b: u8) -> bool
    ensures { result ≡ spec.is_quote b }
{
    b == b'\'' || b == b'"'
}

/// A byte that may stand in a text: printable ASCII or tab.
pub fn is_shown(b: u8) -> bool
    ensures { result ≡ spec.is_shown b }
{
    (32 <= b && b <= 126) || b == b'\t'
}
