//! Expressions and conditions, read in one pass: what a tree stands for is asked afterwards.

ghost use Rattle.std.specs.Prelude.{◌≡◌, map, Some};
ghost use Rattle.cdc_tree.specs.Plain.{plain, PPlus, PBin, PApply, PKnown};
ghost use Rattle.cdc_parse.specs.Tokens.{Gives};
ghost use Rattle.cdc_parse.specs.Reading as r;

use crate::operator::{Sign, operator_at, sign_at};
use crate::refusal::Unread;
use crate::token::{after, copied, expect};
use crate::word::{Word, word_named};
use cdc_base::{List, Place};
use cdc_prog::{BinOp, UnOp};
use cdc_token::{Lexed, Symbol, Token};
use cdc_tree::{Intrinsic, Named, Tree};
use std::alloc::Global;

/// The height of a whole expression or condition: above every rank.
pub(crate) const WHOLE: u32 = 6;

fn signed(alloc: Global, sign: Sign, place: Place, operand: Tree) -> Result<Tree, Unread>
    ensures { Gives plain result (Some (r.signed sign place (plain operand))) }
{
    let operand = Box::new(alloc, operand)?;
    Ok(match sign {
        Sign::Plus => Tree::Plus(place, operand),
        Sign::Minus => Tree::Un(place, UnOp::Neg, operand),
        Sign::Not => Tree::Un(place, UnOp::Not, operand),
    })
}

fn joined(alloc: Global, op: BinOp, left: Tree, right: Tree) -> Result<Tree, Unread>
    ensures { Gives plain result (Some (PBin op (plain left) (plain right))) }
{
    let left = Box::new(alloc, left)?;
    let right = Box::new(alloc, right)?;
    Ok(Tree::Bin(op, left, right))
}

fn intrinsic_of(word: Word) -> Option<Intrinsic>
    ensures { result ≡ r.intrinsic_of word }
{
    match word {
        Word::Abs => Some(Intrinsic::Abs),
        Word::Mod => Some(Intrinsic::Mod),
        Word::Min => Some(Intrinsic::Min),
        Word::Max => Some(Intrinsic::Max),
        _ => None,
    }
}

/// What may stand in parentheses, of which `depth` more may be opened.
#[cycle(read)]
fn inside(alloc: Global, depth: u32, tokens: &[Lexed]) -> Result<(Tree, &[Lexed]), Unread>
    ensures { Gives (λ x. (plain x.0, x.1.now)) result (r.inside depth tokens.now) }
{
    if depth == 0 {
        return Err(Unread::NotAStatement);
    }
    read(alloc, depth - 1, WHOLE, tokens)
}

/// Trees with commas between.
#[cycle(read)]
fn trees(alloc: Global, depth: u32, tokens: &[Lexed]) -> Result<(Vec<Tree>, &[Lexed]), Unread>
    ensures { Gives (λ x. (map plain x.0.items, x.1.now)) result (r.separated (r.inside depth) tokens.now) }
{
    let (tree, mut rest) = inside(alloc, depth, tokens)?;
    let mut trees = Vec::new(alloc);
    trees.push(tree)?;
    'items: for _ in 0..rest.len() {
        match after(Symbol::Comma, rest) {
            Some(next) => {
                let (tree, next) = inside(alloc, depth, next)?;
                trees.push(tree)?;
                rest = next;
            }
            None => return Ok((trees, rest)),
        }
    }
    Ok((trees, rest))
}

/// The arguments up to the parenthesis that closes them.
#[cycle(read)]
fn arguments(alloc: Global, depth: u32, tokens: &[Lexed]) -> Result<(List<Tree>, &[Lexed]), Unread>
    ensures { Gives (λ x. (map plain x.0, x.1.now)) result (r.closed (r.separated (r.inside depth)) tokens.now) }
{
    let (trees, rest) = trees(alloc, depth, tokens)?;
    let rest = expect(Symbol::RightParen, rest)?;
    Ok((List::of(trees), rest))
}

/// A name, alone or with arguments.
#[cycle(read)]
fn reference(
    alloc: Global,
    depth: u32,
    name: Named,
    tokens: &[Lexed],
) -> Result<(Tree, &[Lexed]), Unread>
    ensures { Gives (λ x. (plain x.0, x.1.now)) result (r.reference (r.inside depth) name tokens.now) }
{
    match after(Symbol::LeftParen, tokens) {
        Some(rest) => {
            let (arguments, rest) = arguments(alloc, depth, rest)?;
            Ok((Tree::Apply(name, arguments), rest))
        }
        None => Ok((Tree::Name(name), tokens)),
    }
}

/// An intrinsic function with its arguments.
#[cycle(read)]
fn known(
    alloc: Global,
    depth: u32,
    place: Place,
    word: Word,
    tokens: &[Lexed],
) -> Result<(Tree, &[Lexed]), Unread>
    ensures { Gives (λ x. (plain x.0, x.1.now)) result (r.known (r.inside depth) place word tokens.now) }
{
    match intrinsic_of(word) {
        Some(intrinsic) => {
            let rest = expect(Symbol::LeftParen, tokens)?;
            let (arguments, rest) = arguments(alloc, depth, rest)?;
            Ok((Tree::Known(place, intrinsic, arguments), rest))
        }
        None => Err(Unread::NotAStatement),
    }
}

#[cycle(read)]
fn paren(
    alloc: Global,
    depth: u32,
    place: Place,
    tokens: &[Lexed],
) -> Result<(Tree, &[Lexed]), Unread>
    ensures { Gives (λ x. (plain x.0, x.1.now)) result (r.paren (r.inside depth) place tokens.now) }
{
    let rest = expect(Symbol::LeftParen, tokens)?;
    let (tree, rest) = inside(alloc, depth, rest)?;
    let rest = expect(Symbol::RightParen, rest)?;
    Ok((Tree::Paren(place, Box::new(alloc, tree)?), rest))
}

#[cycle(read)]
fn factor(alloc: Global, depth: u32, tokens: &[Lexed]) -> Result<(Tree, &[Lexed]), Unread>
    ensures { Gives (λ x. (plain x.0, x.1.now)) result (r.factor depth tokens.now) }
{
    match tokens {
        [] => Err(Unread::NotAStatement),
        [first, rest @ ..] => match &first.token {
            Token::Number(value) => Ok((Tree::Number(first.place, *value), rest)),
            Token::Name(name) => match word_named(name.as_slice()) {
                Some(word) => known(alloc, depth, first.place, word, rest),
                None => {
                    let name = copied(alloc, name.as_slice())?;
                    let place = first.place;
                    reference(alloc, depth, Named { name, place }, rest)
                }
            },
            Token::Symbol(_) => paren(alloc, depth, first.place, tokens),
            Token::Text(_) => Err(Unread::NotAStatement),
        },
    }
}

#[cycle(read)]
fn first(alloc: Global, depth: u32, rank: u32, tokens: &[Lexed]) -> Result<(Tree, &[Lexed]), Unread>
    ensures { Gives (λ x. (plain x.0, x.1.now)) result (r.first (r.read depth rank) rank tokens.now) }
{
    match sign_at(rank, tokens) {
        Some((sign, place, rest)) => {
            let (operand, rest) = read(alloc, depth, rank, rest)?;
            Ok((signed(alloc, sign, place, operand)?, rest))
        }
        None => read(alloc, depth, rank, tokens),
    }
}

/// A tree from the front of the tokens, and the tokens after it. Its operators outside parentheses
/// have a rank below `height`, and `depth` parentheses may be opened.
#[cycle(read)]
pub(crate) fn read(
    alloc: Global,
    depth: u32,
    height: u32,
    tokens: &[Lexed],
) -> Result<(Tree, &[Lexed]), Unread>
    ensures { Gives (λ x. (plain x.0, x.1.now)) result (r.read depth height tokens.now) }
{
    if height == 0 {
        return factor(alloc, depth, tokens);
    }
    let rank = height - 1;
    let (mut tree, mut rest) = first(alloc, depth, rank, tokens)?;
    'chain: for _ in 0..rest.len() {
        match operator_at(rank, rest) {
            Some((op, next)) => {
                let (right, next) = read(alloc, depth, rank, next)?;
                tree = joined(alloc, op, tree, right)?;
                rest = next;
            }
            None => return Ok((tree, rest)),
        }
    }
    Ok((tree, rest))
}
