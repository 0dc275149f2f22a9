//! The piece at the front of a line.

ghost use Rattle.std.specs.Prelude.{◌≡◌, ◌≤◌, ◌<◌, ◌+◌, ◌^◌, ◌∷◌, length, IfSome, IfNone, take, drop};
ghost use Rattle.std.specs.List.{prefix_len};
ghost use Rattle.std.specs.Char.{is_ascii_digit};
ghost use Rattle.cdc_token.specs.Bytes as bytes;
ghost use Rattle.cdc_token.specs.Pieces as pieces;
ghost use Rattle.cdc_token.specs.Cutting as spec;
ghost use Rattle.cdc_token.specs.Symbols as symbols;

use crate::bytes::{is_blank, is_quote, is_word};
use crate::closing::text_len;
use crate::spelling::symbol_at;

/// What a run of bytes in a line is.
#[derive(Clone, Copy, Debug, PartialEq, Eq)]
pub enum Kind {
    Blank,
    Comment,
    Text,
    Name,
    Number,
    Symbol,
    /// The `&` of a line that is continued or continued to.
    Mark,
    Semicolon,
}

/// What a piece can be that begins with this byte. What begins no other piece may begin a symbol.
fn kind_at(b: u8) -> Kind
    ensures { result ≡ spec.kind_at b }
{
    if b.is_ascii_alphabetic() {
        return Kind::Name;
    }
    if b.is_ascii_digit() {
        return Kind::Number;
    }
    if is_blank(b) {
        return Kind::Blank;
    }
    if is_quote(b) {
        return Kind::Text;
    }
    match b {
        b'!' => Kind::Comment,
        b'&' => Kind::Mark,
        b';' => Kind::Semicolon,
        _ => Kind::Symbol,
    }
}

/// How many bytes at the front go on a name.
fn words(z: &[u8]) -> usize
    ensures value { result ≡ prefix_len bytes.is_word z.now }
    ensures within { result ≤ length z.now }
{
    let mut end = 0;
    while end < z.len() && is_word(z[end]) {
        end += 1;
    }
    end
}

/// How many bytes at the front are digits.
fn digits(z: &[u8]) -> usize
    ensures value { result ≡ prefix_len is_ascii_digit z.now }
    ensures within { result ≤ length z.now }
{
    let mut end = 0;
    while end < z.len() && z[end].is_ascii_digit() {
        end += 1;
    }
    end
}

/// How many bytes the longest symbol at the front has.
fn symbol_len(z: &[u8]) -> Option<usize>
    ensures { result ≡ spec.second (spec.first_fit symbols.spellings z.now) }
{
    let (_, n) = symbol_at(z)?;
    Some(n)
}

/// How many bytes a piece of this kind has, where `z` is its first byte and what follows that.
fn len(kind: Kind, b: u8, rest: &[u8], z: &[u8]) -> Option<usize>
    requires small { length z.now < 2 ^ 62 }
    requires parts { z.now ≡ b ∷ rest.now }
    ensures { result ≡ spec.len kind b rest.now }
{
    match kind {
        Kind::Name => Some(1 + words(rest)),
        Kind::Number => Some(1 + digits(rest)),
        Kind::Symbol => symbol_len(z),
        Kind::Comment => Some(1 + rest.len()),
        Kind::Text => text_len(b, rest),
        Kind::Blank | Kind::Mark | Kind::Semicolon => Some(1),
    }
}

/// The kind of the piece at the front, by its first byte, and how many bytes it has.
fn cut(z: &[u8]) -> Option<(Kind, usize)>
    requires { length z.now < 2 ^ 62 }
    ensures { result ≡ spec.cut z.now }
{
    let [b, rest @ ..] = z else {
        return None;
    };
    let kind = kind_at(*b);
    match len(kind, *b, rest, z) {
        None => None,
        Some(n) => Some((kind, n)),
    }
}

/// The kind of the longest piece that begins at the front, and how many bytes it has.
pub fn piece_at(z: &[u8]) -> Option<(Kind, usize)>
    requires { length z.now < 2 ^ 62 }
    ensures found { IfSome result (λ p. pieces.IsPiece p.0 (take p.1 z.now) (drop p.1 z.now)) }
    ensures within { IfSome result (λ p. (1 ≤ p.1) × (p.1 ≤ length z.now)) }
    ensures none { IfNone result (pieces.NoPiece z.now) }
{
    cut(z)
}
