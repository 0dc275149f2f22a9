//! What a list of tokens begins with.

ghost use Rattle.std.specs.Prelude.{◌≡◌, IfOk};
ghost use Rattle.cdc_parse.specs.Tokens.{Sees, Gives, same, after, word_of, word_at, after_word, name_at, finished};

use crate::refusal::Unread;
use crate::word::{Word, same_word, word_named};
use cdc_base::List;
use cdc_token::{Lexed, Symbol, Token};
use cdc_tree::Named;
use std::alloc::Global;

#[tactic(auto, unfolding(crate::specs::Tokens::same))]
fn same(a: Symbol, b: Symbol) -> bool
    ensures { result ≡ same a b }
{
    a == b
}

/// The tokens after the symbol that they begin with.
pub(crate) fn after(symbol: Symbol, tokens: &[Lexed]) -> Option<&[Lexed]>
    ensures { Sees (λ x. x.now) result (after symbol tokens.now) }
{
    match tokens {
        [] => None,
        [first, rest @ ..] => match &first.token {
            Token::Symbol(found) => {
                if same(*found, symbol) {
                    Some(rest)
                } else {
                    None
                }
            }
            _ => None,
        },
    }
}

pub(crate) fn expect(symbol: Symbol, tokens: &[Lexed]) -> Result<&[Lexed], Unread>
    ensures { Gives (λ x. x.now) result (after symbol tokens.now) }
{
    match after(symbol, tokens) {
        Some(rest) => Ok(rest),
        None => Err(Unread::NotAStatement),
    }
}

fn word_of(token: &Token) -> Option<Word>
    ensures { result ≡ word_of token.now }
{
    match token {
        Token::Name(name) => word_named(name.as_slice()),
        _ => None,
    }
}

/// The reserved word that the tokens begin with, and the tokens after it.
pub(crate) fn word_at(tokens: &[Lexed]) -> Option<(Word, &[Lexed])>
    ensures { Sees (λ x. (x.0, x.1.now)) result (word_at tokens.now) }
{
    match tokens {
        [] => None,
        [first, rest @ ..] => match word_of(&first.token) {
            Some(word) => Some((word, rest)),
            None => None,
        },
    }
}

pub(crate) fn after_word(word: Word, tokens: &[Lexed]) -> Option<&[Lexed]>
    ensures { Sees (λ x. x.now) result (after_word word tokens.now) }
{
    match word_at(tokens) {
        Some((found, rest)) => {
            if same_word(found, word) {
                Some(rest)
            } else {
                None
            }
        }
        None => None,
    }
}

pub(crate) fn expect_word(word: Word, tokens: &[Lexed]) -> Result<&[Lexed], Unread>
    ensures { Gives (λ x. x.now) result (after_word word tokens.now) }
{
    match after_word(word, tokens) {
        Some(rest) => Ok(rest),
        None => Err(Unread::NotAStatement),
    }
}

/// A copy of the bytes.
pub(crate) fn copied(alloc: Global, bytes: &[u8]) -> Result<List<u8>, Unread>
    ensures { Gives (λ x. x) result (Some bytes.now) }
{
    Ok(List::of(bytes.to_vec(alloc)?))
}

/// The name that the tokens begin with, copied, and the tokens after it.
pub(crate) fn name_at(alloc: Global, tokens: &[Lexed]) -> Result<(Named, &[Lexed]), Unread>
    ensures { Gives (λ x. (x.0, x.1.now)) result (name_at tokens.now) }
{
    match tokens {
        [] => Err(Unread::NotAStatement),
        [first, rest @ ..] => match &first.token {
            Token::Name(name) => match word_named(name.as_slice()) {
                Some(_) => Err(Unread::NotAStatement),
                None => {
                    let name = copied(alloc, name.as_slice())?;
                    let place = first.place;
                    Ok((Named { name, place }, rest))
                }
            },
            _ => Err(Unread::NotAStatement),
        },
    }
}

/// Refuses tokens that are left over.
pub(crate) fn finished(tokens: &[Lexed]) -> Result<(), Unread>
    ensures { Gives (λ _. tt) result (finished tokens.now) }
{
    match tokens {
        [] => Ok(()),
        _ => Err(Unread::NotAStatement),
    }
}
