//! Lists with commas between their items.

ghost use Rattle.std.specs.Prelude.{◌≡◌, map, length};
ghost use Rattle.cdc_parse.specs.Tokens.{Gives};
ghost use Rattle.cdc_parse.specs.Reading as r;
ghost use Rattle.cdc_parse.specs.Forms as f;

use crate::refusal::Unread;
use crate::token::{after, expect};
use cdc_base::List;
use cdc_token::{Lexed, Symbol};
use std::alloc::Global;

/// What stands in a list.
pub(crate) trait Item: Drop {
    /// What definitions have in its place.
    ghost Seen: { Type 0 };

    ghost seen: { Self → Seen };

    /// How it is read from the front of the tokens.
    ghost item_at: { r.Gets Seen };

    /// An item from the front of the tokens, and the tokens after it.
    fn item(alloc: Global, tokens: &[Lexed]) -> Result<(Self, &[Lexed]), Unread>
        ensures { Gives (λ x. (seen x.0, x.1.now)) result (item_at tokens.now) };
}

/// The items that were read before, and each item after a comma from there on.
pub(crate) fn more<T: Item>(
    alloc: Global,
    before: Vec<T>,
    tokens: &[Lexed],
) -> Result<(Vec<T>, &[Lexed]), Unread>
    ensures { Gives (λ x. (map T.seen x.0.items, x.1.now)) result (r.more T.item_at (length tokens.now) (map T.seen before.items) tokens.now) }
{
    let mut items = before;
    let mut rest = tokens;
    'items: for _ in 0..tokens.len() {
        match after(Symbol::Comma, rest) {
            Some(next) => {
                let (item, next) = T::item(alloc, next)?;
                items.push(item)?;
                rest = next;
            }
            None => return Ok((items, rest)),
        }
    }
    Ok((items, rest))
}

/// Items with commas between.
pub(crate) fn separated<T: Item>(
    alloc: Global,
    tokens: &[Lexed],
) -> Result<(Vec<T>, &[Lexed]), Unread>
    ensures { Gives (λ x. (map T.seen x.0.items, x.1.now)) result (r.separated T.item_at tokens.now) }
{
    let (item, rest) = T::item(alloc, tokens)?;
    let mut items = Vec::new(alloc);
    items.push(item)?;
    more(alloc, items, rest)
}

/// Items with commas between, up to the parenthesis that closes them.
pub(crate) fn closed<T: Item>(
    alloc: Global,
    tokens: &[Lexed],
) -> Result<(List<T>, &[Lexed]), Unread>
    ensures { Gives (λ x. (map T.seen x.0, x.1.now)) result (r.closed (r.separated T.item_at) tokens.now) }
{
    let (items, rest) = separated(alloc, tokens)?;
    let rest = expect(Symbol::RightParen, rest)?;
    Ok((List::of(items), rest))
}

/// The bounds or subscripts of an array, where there are any.
pub(crate) fn subscripted<T: Item>(
    alloc: Global,
    tokens: &[Lexed],
) -> Result<(List<T>, &[Lexed]), Unread>
    ensures { Gives (λ x. (map T.seen x.0, x.1.now)) result (f.subscripted T.item_at tokens.now) }
{
    match after(Symbol::LeftParen, tokens) {
        Some(rest) => closed(alloc, rest),
        None => Ok((List::new(alloc), tokens)),
    }
}

/// The arguments of a subroutine or of a call, where there are any.
pub(crate) fn in_parens<T: Item>(
    alloc: Global,
    tokens: &[Lexed],
) -> Result<(List<T>, &[Lexed]), Unread>
    ensures { Gives (λ x. (map T.seen x.0, x.1.now)) result (f.in_parens T.item_at tokens.now) }
{
    match after(Symbol::LeftParen, tokens) {
        Some(rest) => match after(Symbol::RightParen, rest) {
            Some(rest) => Ok((List::new(alloc), rest)),
            None => closed(alloc, rest),
        },
        None => Ok((List::new(alloc), tokens)),
    }
}
