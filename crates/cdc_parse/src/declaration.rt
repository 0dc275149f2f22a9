//! Declarations (ISO/IEC 1539:1991, section 5).

ghost use Rattle.std.specs.Prelude.{◌≡◌, Some};
ghost use Rattle.cdc_parse.specs.Tokens.{Gives};
ghost use Rattle.cdc_tree.specs.Forms as v;
ghost use Rattle.cdc_tree.specs.Forms.{PBound, PDeclared, PDefine};
ghost use Rattle.cdc_parse.specs.Forms as f;

use crate::commas::{Item, separated, subscripted};
use crate::parts::{alone, number};
use crate::refusal::Unread;
use crate::token::{after, expect, expect_word, name_at};
use crate::word::Word;
use cdc_base::List;
use cdc_token::{Lexed, Symbol};
use cdc_tree::{Bound, Declared, Define, Form};
use std::alloc::Global;

/// An upper bound, or a lower and an upper bound with a colon between.
impl Item for Bound {
    ghost Seen = { PBound };

    ghost seen = { v.bound };

    ghost item_at = { f.bound_at };

    fn item(alloc: Global, tokens: &[Lexed]) -> Result<(Bound, &[Lexed]), Unread> {
        let (first, rest) = number(alloc, tokens)?;
        match after(Symbol::Colon, rest) {
            Some(rest) => {
                let (high, rest) = number(alloc, rest)?;
                let low = Some(first);
                Ok((Bound { low, high }, rest))
            }
            None => {
                let low = None;
                Ok((Bound { low, high: first }, rest))
            }
        }
    }
}

impl Item for Declared {
    ghost Seen = { PDeclared };

    ghost seen = { v.declared };

    ghost item_at = { f.declared_at };

    fn item(alloc: Global, tokens: &[Lexed]) -> Result<(Declared, &[Lexed]), Unread> {
        let (name, rest) = name_at(alloc, tokens)?;
        let (bounds, rest) = subscripted(alloc, rest)?;
        Ok((Declared { name, bounds }, rest))
    }
}

impl Item for Define {
    ghost Seen = { PDefine };

    ghost seen = { v.define };

    ghost item_at = { f.define_at };

    fn item(alloc: Global, tokens: &[Lexed]) -> Result<(Define, &[Lexed]), Unread> {
        let (name, rest) = name_at(alloc, tokens)?;
        let rest = expect(Symbol::Assign, rest)?;
        let (value, rest) = number(alloc, rest)?;
        Ok((Define { name, value }, rest))
    }
}

/// What follows `INTEGER ,`.
fn parameter(alloc: Global, tokens: &[Lexed]) -> Result<Form, Unread>
    ensures { Gives v.form result (f.parameter_at tokens.now) }
{
    let rest = expect_word(Word::Parameter, tokens)?;
    let rest = expect(Symbol::DoubleColon, rest)?;
    let (defines, rest) = separated(alloc, rest)?;
    alone(Form::Parameter(List::of(defines)), rest)
}

fn items(alloc: Global, tokens: &[Lexed]) -> Result<Form, Unread>
    ensures { Gives v.form result (f.items_at tokens.now) }
{
    let (declarations, rest) = separated(alloc, tokens)?;
    alone(Form::Integer(List::of(declarations)), rest)
}

/// What follows INTEGER.
pub(crate) fn integer(alloc: Global, tokens: &[Lexed]) -> Result<Form, Unread>
    ensures { Gives v.form result (f.integer_at tokens.now) }
{
    match after(Symbol::Comma, tokens) {
        Some(rest) => parameter(alloc, rest),
        None => match after(Symbol::DoubleColon, tokens) {
            Some(rest) => items(alloc, rest),
            None => items(alloc, tokens),
        },
    }
}

/// What follows IMPLICIT.
pub(crate) fn implicit(tokens: &[Lexed]) -> Result<Form, Unread>
    ensures { Gives v.form result (f.implicit_at tokens.now) }
{
    let rest = expect_word(Word::Nothing, tokens)?;
    alone(Form::ImplicitNone, rest)
}
