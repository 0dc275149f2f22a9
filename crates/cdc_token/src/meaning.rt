//! What a piece means.

ghost use Rattle.std.specs.Prelude.{◌≡◌, ◌<◌, ◌+◌, ◌^◌, length, IfOk, IfErr};
ghost use Rattle.cdc_token.specs.Pieces as pieces;
ghost use Rattle.cdc_token.specs.Tokens as spec;
ghost use Rattle.cdc_token.specs.Values as values;

use crate::fault::{Fault, LineRefusal};
use crate::piece::Kind;
use crate::spelling::symbol_at;
use crate::token::Token;
use crate::value::{bad_byte, number, upper_case, without_seconds};
use cdc_base::List;
use std::alloc::{AllocError, Global};

/// The most characters of a name (ISO/IEC 1539:1991, section 3.2.1).
const MAX_NAME: usize = 31;

/// What a piece gives to the logical lines.
#[derive(Debug, Drop)]
pub enum Meaning {
    Nothing,
    /// The end of a logical line.
    End,
    Token(Token),
}

/// A name in upper case, or that it is too long.
fn name_meaning(alloc: Global, bytes: &[u8], column: u32) -> Result<Meaning, LineRefusal>
    requires { pieces.Is Kind.Name bytes.now }
    ensures ok { IfOk result (λ m. (m ≡ spec.meaning Kind.Name bytes.now) × values.NothingWrong Kind.Name bytes.now) }
    ensures wrong { IfErr result (λ e. values.Rejects Kind.Name bytes.now column e) }
{
    if MAX_NAME < bytes.len() {
        return Err(LineRefusal::At(Fault::NameLong, column));
    }
    Ok(Meaning::Token(Token::Name(List::of(upper_case(alloc, bytes)?))))
}

/// The value of a number, or that it is over 2^63 - 1.
fn number_meaning(bytes: &[u8], column: u32) -> Result<Meaning, LineRefusal>
    requires { pieces.Is Kind.Number bytes.now }
    ensures ok { IfOk result (λ m. (m ≡ spec.meaning Kind.Number bytes.now) × values.NothingWrong Kind.Number bytes.now) }
    ensures wrong { IfErr result (λ e. values.Rejects Kind.Number bytes.now column e) }
{
    match number(bytes) {
        None => Err(LineRefusal::At(Fault::NumberWide, column)),
        Some(value) => Ok(Meaning::Token(Token::Number(value))),
    }
}

/// What a text says: each doubled quote counts as one.
fn content(alloc: Global, text: &[u8]) -> Result<Vec<u8>, AllocError>
    requires { pieces.Is Kind.Text text.now }
    ensures { IfOk result (λ v. v.items ≡ spec.content text.now) }
{
    match text {
        [quote, inner @ .., _] => without_seconds(alloc, *quote, inner),
        _ => Ok(Vec::new(alloc)),
    }
}

/// What a text says, or the first byte in it that is neither printable ASCII nor tab.
fn text_meaning(alloc: Global, bytes: &[u8], column: u32) -> Result<Meaning, LineRefusal>
    requires text { pieces.Is Kind.Text bytes.now }
    requires fits { column + length bytes.now < 2 ^ 32 }
    ensures ok { IfOk result (λ m. (m ≡ spec.meaning Kind.Text bytes.now) × values.NothingWrong Kind.Text bytes.now) }
    ensures wrong { IfErr result (λ e. values.Rejects Kind.Text bytes.now column e) }
{
    match bad_byte(bytes) {
        Some(behind) => Err(LineRefusal::At(Fault::BadByte, column + behind as u32)),
        None => Ok(Meaning::Token(Token::Text(List::of(content(alloc, bytes)?)))),
    }
}

/// The symbol that the bytes write.
fn symbol_meaning(bytes: &[u8]) -> Meaning
    requires { pieces.Is Kind.Symbol bytes.now }
    ensures { result ≡ spec.meaning Kind.Symbol bytes.now }
{
    match symbol_at(bytes) {
        None => Meaning::Nothing,
        Some((symbol, _)) => Meaning::Token(Token::Symbol(symbol)),
    }
}

/// What a piece that begins at this column means, or what is wrong with it first.
pub fn meaning_of(
    alloc: Global,
    kind: Kind,
    bytes: &[u8],
    column: u32,
) -> Result<Meaning, LineRefusal>
    requires piece { pieces.Is kind bytes.now }
    requires fits { column + length bytes.now < 2 ^ 32 }
    ensures ok { IfOk result (λ m. (m ≡ spec.meaning kind bytes.now) × values.NothingWrong kind bytes.now) }
    ensures wrong { IfErr result (λ e. values.Rejects kind bytes.now column e) }
{
    match kind {
        Kind::Blank | Kind::Comment | Kind::Mark => Ok(Meaning::Nothing),
        Kind::Semicolon => Ok(Meaning::End),
        Kind::Name => name_meaning(alloc, bytes, column),
        Kind::Number => number_meaning(bytes, column),
        Kind::Text => text_meaning(alloc, bytes, column),
        Kind::Symbol => Ok(symbol_meaning(bytes)),
    }
}
