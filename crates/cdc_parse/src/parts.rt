//! Parts of statements: numbers, conditions and what stands in lists.

ghost use Rattle.std.specs.Prelude.{◌≡◌, Some};
ghost use Rattle.cdc_tree.specs.Plain.{Plain, plain};
ghost use Rattle.cdc_parse.specs.Tokens.{Gives, name_at};
ghost use Rattle.cdc_tree.specs.Forms as v;
ghost use Rattle.cdc_tree.specs.Forms.{PSpot};
ghost use Rattle.cdc_tree.specs.declared.tree.Named.{Named as Name};
ghost use Rattle.cdc_parse.specs.Forms as f;

use crate::commas::{Item, subscripted};
use crate::kind::{Kind, kind_of};
use crate::reading::{WHOLE, read};
use crate::refusal::Unread;
use crate::token::{expect, finished, name_at};
use cdc_token::{Lexed, Symbol};
use cdc_tree::{Form, Named, Spot, Tree};
use std::alloc::Global;

/// At most so many parentheses are open in an expression or a condition.
const MOST_OPEN: u32 = 64;

#[tactic(auto, unfolding(crate::specs::Forms::whole))]
fn whole(alloc: Global, tokens: &[Lexed]) -> Result<(Tree, &[Lexed]), Unread>
    ensures { Gives (λ x. (plain x.0, x.1.now)) result (f.whole tokens.now) }
{
    read(alloc, MOST_OPEN, WHOLE, tokens)
}

/// An expression from the front of the tokens, and the tokens after it.
#[tactic(auto, unfolding(crate::specs::Forms::number_at))]
pub(crate) fn number(alloc: Global, tokens: &[Lexed]) -> Result<(Tree, &[Lexed]), Unread>
    ensures { Gives (λ x. (plain x.0, x.1.now)) result (f.number_at tokens.now) }
{
    let (tree, rest) = whole(alloc, tokens)?;
    match kind_of(&tree) {
        Kind::Number => Ok((tree, rest)),
        _ => Err(Unread::NotAStatement),
    }
}

/// A condition from the front of the tokens, and the tokens after it.
#[tactic(auto, unfolding(crate::specs::Forms::condition_at))]
fn condition(alloc: Global, tokens: &[Lexed]) -> Result<(Tree, &[Lexed]), Unread>
    ensures { Gives (λ x. (plain x.0, x.1.now)) result (f.condition_at tokens.now) }
{
    let (tree, rest) = whole(alloc, tokens)?;
    match kind_of(&tree) {
        Kind::Truth => Ok((tree, rest)),
        _ => Err(Unread::NotAStatement),
    }
}

/// A condition in parentheses.
pub(crate) fn guard(alloc: Global, tokens: &[Lexed]) -> Result<(Tree, &[Lexed]), Unread>
    ensures { Gives (λ x. (plain x.0, x.1.now)) result (f.guard_at tokens.now) }
{
    let rest = expect(Symbol::LeftParen, tokens)?;
    let (condition, rest) = condition(alloc, rest)?;
    let rest = expect(Symbol::RightParen, rest)?;
    Ok((condition, rest))
}

/// The statement, where no tokens are left over.
pub(crate) fn alone(form: Form, tokens: &[Lexed]) -> Result<Form, Unread>
    ensures { Gives v.form result (f.alone (v.form form) tokens.now) }
{
    if let Err(unread) = finished(tokens) {
        drop(form);
        return Err(unread);
    }
    Ok(form)
}

impl Item for Named {
    ghost Seen = { Name };

    ghost seen = { λ n. n };

    ghost item_at = { name_at };

    fn item(alloc: Global, tokens: &[Lexed]) -> Result<(Named, &[Lexed]), Unread> {
        name_at(alloc, tokens)
    }
}

impl Item for Tree {
    ghost Seen = { Plain };

    ghost seen = { plain };

    ghost item_at = { f.number_at };

    fn item(alloc: Global, tokens: &[Lexed]) -> Result<(Tree, &[Lexed]), Unread> {
        number(alloc, tokens)
    }
}

/// What an assignment or a READ stores into.
impl Item for Spot {
    ghost Seen = { PSpot };

    ghost seen = { v.spot };

    ghost item_at = { f.spot_at };

    fn item(alloc: Global, tokens: &[Lexed]) -> Result<(Spot, &[Lexed]), Unread> {
        let (name, rest) = name_at(alloc, tokens)?;
        let (subs, rest) = subscripted(alloc, rest)?;
        Ok((Spot { name, subs }, rest))
    }
}
