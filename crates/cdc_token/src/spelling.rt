//! How the symbols are written.

ghost use Rattle.std.specs.Prelude.{◌≡◌, ◌≤◌, length, map, take, IfSome};
ghost use Rattle.std.specs.Str.{str_eq_ignore_ascii_case};
ghost use Rattle.cdc_token.specs.Symbols as symbols;
ghost use Rattle.cdc_token.specs.Cutting as spec;

use crate::token::Symbol;

/// Each spelling of a symbol, in upper case. The longer ones come first, so the first that stands at a place is the longest.
pub const SPELLINGS: [(&[u8], Symbol); 25] = [
    (b".NOT.", Symbol::Not),
    (b".AND.", Symbol::And),
    (b".EQ.", Symbol::Eq),
    (b".NE.", Symbol::Ne),
    (b".LT.", Symbol::Lt),
    (b".LE.", Symbol::Le),
    (b".GT.", Symbol::Gt),
    (b".GE.", Symbol::Ge),
    (b".OR.", Symbol::Or),
    (b"==", Symbol::Eq),
    (b"/=", Symbol::Ne),
    (b"<=", Symbol::Le),
    (b">=", Symbol::Ge),
    (b"::", Symbol::DoubleColon),
    (b"<", Symbol::Lt),
    (b">", Symbol::Gt),
    (b"=", Symbol::Assign),
    (b":", Symbol::Colon),
    (b"(", Symbol::LeftParen),
    (b")", Symbol::RightParen),
    (b",", Symbol::Comma),
    (b"+", Symbol::Plus),
    (b"-", Symbol::Minus),
    (b"*", Symbol::Star),
    (b"/", Symbol::Slash),
];

/// The same bytes, but for the case of letters.
fn same_letters(a: &[u8], b: &[u8]) -> bool
    ensures { result ≡ str_eq_ignore_ascii_case a.now b.now }
{
    a.eq_ignore_ascii_case(b)
}

/// The first n bytes, or all where there are fewer.
fn front(z: &[u8], n: usize) -> &[u8]
    ensures { result.now ≡ take n z.now }
{
    if n < z.len() { &z[..n] } else { z }
}

/// The spelling stands at the front, in any letter case.
fn begins_with(z: &[u8], spelling: &[u8]) -> bool
    ensures { result ≡ str_eq_ignore_ascii_case spelling.now (take (length spelling.now) z.now) }
{
    same_letters(spelling, front(z, spelling.len()))
}

/// The first symbol of the table that stands at the front, and the number of its bytes.
fn first_fit(mut table: &[(&[u8], Symbol)], z: &[u8]) -> Option<(Symbol, usize)>
    ensures { result ≡ spec.first_fit (map (λ s. (s.0.now, s.1)) table.entry.now) z.now }
{
    while let [entry, rest @ ..] = table {
        if begins_with(z, entry.0) {
            return Some((entry.1, entry.0.len()));
        }
        table = rest;
    }
    None
}

/// The longest symbol at the front, in any letter case, and the number of its bytes.
pub fn symbol_at(z: &[u8]) -> Option<(Symbol, usize)>
    ensures { result ≡ spec.first_fit symbols.spellings z.now }
{
    first_fit(&SPELLINGS, z)
}
