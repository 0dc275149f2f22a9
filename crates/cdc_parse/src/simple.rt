//! Statements that may follow the condition of a logical IF: an assignment, CALL, PRINT and READ.

ghost use Rattle.std.specs.Prelude.{◌≡◌, Some};
ghost use Rattle.cdc_parse.specs.Tokens.{Gives};
ghost use Rattle.cdc_tree.specs.Forms as v;
ghost use Rattle.cdc_tree.specs.Forms.{PShown};
ghost use Rattle.cdc_parse.specs.Forms as f;

use crate::commas::{Item, in_parens, more};
use crate::parts::{alone, number};
use crate::refusal::Unread;
use crate::token::{after, copied, expect, name_at, word_at};
use crate::word::Word;
use cdc_base::List;
use cdc_token::{Lexed, Symbol, Token};
use cdc_tree::{Form, Shown, Spot};
use std::alloc::Global;

fn assign(alloc: Global, tokens: &[Lexed]) -> Result<Form, Unread>
    ensures { Gives v.form result (f.assign_at tokens.now) }
{
    let (target, rest) = Spot::item(alloc, tokens)?;
    let rest = expect(Symbol::Assign, rest)?;
    let (value, rest) = number(alloc, rest)?;
    alone(Form::Assign(target, value), rest)
}

fn call(alloc: Global, tokens: &[Lexed]) -> Result<Form, Unread>
    ensures { Gives v.form result (f.call_at tokens.now) }
{
    let (name, rest) = name_at(alloc, tokens)?;
    let (actuals, rest) = in_parens(alloc, rest)?;
    alone(Form::Call(name, actuals), rest)
}

/// A text or an expression.
impl Item for Shown {
    ghost Seen = { PShown };

    ghost seen = { v.shown };

    ghost item_at = { f.shown_at };

    fn item(alloc: Global, tokens: &[Lexed]) -> Result<(Shown, &[Lexed]), Unread> {
        match tokens {
            [] => Err(Unread::NotAStatement),
            [first, rest @ ..] => match &first.token {
                Token::Text(text) => Ok((Shown::Text(copied(alloc, text.as_slice())?), rest)),
                _ => {
                    let (value, rest) = number(alloc, tokens)?;
                    Ok((Shown::Value(value), rest))
                }
            },
        }
    }
}

fn print(alloc: Global, tokens: &[Lexed]) -> Result<Form, Unread>
    ensures { Gives v.form result (f.print_at tokens.now) }
{
    let rest = expect(Symbol::Star, tokens)?;
    let (items, rest) = more(alloc, Vec::new(alloc), rest)?;
    alone(Form::Print(List::of(items)), rest)
}

fn read(alloc: Global, tokens: &[Lexed]) -> Result<Form, Unread>
    ensures { Gives v.form result (f.read_at tokens.now) }
{
    let rest = expect(Symbol::Star, tokens)?;
    let (targets, rest) = more(alloc, Vec::new(alloc), rest)?;
    alone(Form::Read(List::of(targets)), rest)
}

/// The assignment, CALL, PRINT or READ that the tokens are.
#[tactic(auto, unfolding(crate::specs::Forms::simple_at))]
pub(crate) fn simple(alloc: Global, tokens: &[Lexed]) -> Result<Form, Unread>
    ensures { Gives v.form result (f.simple_at tokens.now) }
{
    match word_at(tokens) {
        Some((Word::Call, rest)) => call(alloc, rest),
        Some((Word::Print, rest)) => print(alloc, rest),
        Some((Word::Read, rest)) => read(alloc, rest),
        Some(_) => Err(Unread::NotAStatement),
        None => assign(alloc, tokens),
    }
}
