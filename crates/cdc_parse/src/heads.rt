//! The statement that a line's tokens are.

ghost use Rattle.std.specs.Prelude.{◌≡◌, Some, option_map};
ghost use Rattle.cdc_tree.specs.Plain.{plain};
ghost use Rattle.cdc_parse.specs.Tokens.{Gives};
ghost use Rattle.cdc_tree.specs.Forms as v;
ghost use Rattle.cdc_parse.specs.Forms as f;

use crate::commas::{closed, in_parens};
use crate::declaration::{implicit, integer};
use crate::parts::{alone, guard, number};
use crate::refusal::Unread;
use crate::simple::simple;
use crate::token::{after, after_word, expect, expect_word, finished, name_at, word_at};
use crate::word::Word;
use cdc_base::{List, Place};
use cdc_token::{Lexed, Symbol};
use cdc_tree::{Ending, Form, Loop, Named, Statement, Tree};
use std::alloc::Global;

fn program(alloc: Global, tokens: &[Lexed]) -> Result<Form, Unread>
    ensures { Gives v.form result (f.program_at tokens.now) }
{
    let (name, rest) = name_at(alloc, tokens)?;
    alone(Form::Program(name), rest)
}

fn subroutine(alloc: Global, tokens: &[Lexed]) -> Result<Form, Unread>
    ensures { Gives v.form result (f.subroutine_at tokens.now) }
{
    let (name, rest) = name_at(alloc, tokens)?;
    let (dummies, rest) = in_parens(alloc, rest)?;
    alone(Form::Subroutine(name, dummies), rest)
}

/// The name at the end of the line, if there is one.
fn last_name(alloc: Global, tokens: &[Lexed]) -> Result<Option<Named>, Unread>
    ensures { Gives (λ x. x) result (f.last_name tokens.now) }
{
    match tokens {
        [] => Ok(None),
        _ => {
            let (name, rest) = name_at(alloc, tokens)?;
            finished(rest)?;
            Ok(Some(name))
        }
    }
}

/// What follows END.
fn end(alloc: Global, tokens: &[Lexed]) -> Result<Form, Unread>
    ensures { Gives v.form result (f.end_at tokens.now) }
{
    match word_at(tokens) {
        None => alone(Form::End(Ending::Plain), tokens),
        Some((Word::Program, rest)) => { Ok(Form::End(Ending::Program(last_name(alloc, rest)?))) }
        Some((Word::Subroutine, rest)) => {
            Ok(Form::End(Ending::Subroutine(last_name(alloc, rest)?)))
        }
        Some((Word::If, rest)) => alone(Form::EndIf, rest),
        Some((Word::Do, rest)) => alone(Form::EndDo, rest),
        Some((Word::Doall, rest)) => alone(Form::EndDoall, rest),
        Some(_) => Err(Unread::NotAStatement),
    }
}

/// The controls of a DO or a DOALL.
fn controls(alloc: Global, tokens: &[Lexed]) -> Result<(Loop, &[Lexed]), Unread>
    ensures { Gives (λ x. (v.loop x.0, x.1.now)) result (f.loop_at tokens.now) }
{
    let (var, rest) = name_at(alloc, tokens)?;
    let rest = expect(Symbol::Assign, rest)?;
    let (from, rest) = number(alloc, rest)?;
    let rest = expect(Symbol::Comma, rest)?;
    let (to, rest) = number(alloc, rest)?;
    let (by, rest) = step(alloc, rest)?;
    Ok((Loop { var, from, to, by }, rest))
}

/// The step of a loop, if one is written.
fn step(alloc: Global, tokens: &[Lexed]) -> Result<(Option<Tree>, &[Lexed]), Unread>
    ensures { Gives (λ x. (option_map plain x.0, x.1.now)) result (f.step_at tokens.now) }
{
    match after(Symbol::Comma, tokens) {
        Some(rest) => {
            let (by, rest) = number(alloc, rest)?;
            Ok((Some(by), rest))
        }
        None => Ok((None, tokens)),
    }
}

/// What follows DO.
fn counted(alloc: Global, tokens: &[Lexed]) -> Result<Form, Unread>
    ensures { Gives v.form result (f.do_at tokens.now) }
{
    let (controls, rest) = controls(alloc, tokens)?;
    alone(Form::Do(controls), rest)
}

/// The private names of a DOALL, where there are any.
fn privates(alloc: Global, tokens: &[Lexed]) -> Result<List<Named>, Unread>
    ensures { Gives (λ x. x) result (f.privates_at tokens.now) }
{
    match after_word(Word::Private, tokens) {
        Some(rest) => {
            let rest = expect(Symbol::LeftParen, rest)?;
            let (names, rest) = closed(alloc, rest)?;
            finished(rest)?;
            Ok(names)
        }
        None => {
            finished(tokens)?;
            Ok(List::new(alloc))
        }
    }
}

fn doall(alloc: Global, tokens: &[Lexed]) -> Result<Form, Unread>
    ensures { Gives v.form result (f.doall_at tokens.now) }
{
    let (controls, rest) = controls(alloc, tokens)?;
    match privates(alloc, rest) {
        Ok(privates) => Ok(Form::Doall(controls, privates)),
        Err(unread) => {
            drop(controls);
            Err(unread)
        }
    }
}

fn place_at(tokens: &[Lexed]) -> Result<Place, Unread>
    ensures { Gives (λ x. x) result (f.place_at tokens.now) }
{
    match tokens {
        [] => Err(Unread::NotAStatement),
        [first, ..] => Ok(first.place),
    }
}

/// The IF with this condition and the statement that the tokens are.
fn logical(alloc: Global, condition: Tree, tokens: &[Lexed]) -> Result<Form, Unread>
    ensures { Gives v.form result (f.logical (plain condition) tokens.now) }
{
    let place = place_at(tokens)?;
    let form = simple(alloc, tokens)?;
    let statement = Box::new(alloc, Statement { place, form })?;
    Ok(Form::LogicalIf(condition, statement))
}

/// What follows IF.
fn choice(alloc: Global, tokens: &[Lexed]) -> Result<Form, Unread>
    ensures { Gives v.form result (f.if_at tokens.now) }
{
    let (condition, rest) = guard(alloc, tokens)?;
    match after_word(Word::Then, rest) {
        Some(rest) => alone(Form::IfThen(condition), rest),
        None => logical(alloc, condition, rest),
    }
}

/// What follows ELSE IF.
fn other_choice(alloc: Global, tokens: &[Lexed]) -> Result<Form, Unread>
    ensures { Gives v.form result (f.else_if_at tokens.now) }
{
    let (condition, rest) = guard(alloc, tokens)?;
    let rest = expect_word(Word::Then, rest)?;
    alone(Form::ElseIf(condition), rest)
}

/// What follows ELSE.
fn otherwise(alloc: Global, tokens: &[Lexed]) -> Result<Form, Unread>
    ensures { Gives v.form result (f.else_at tokens.now) }
{
    match after_word(Word::If, tokens) {
        Some(rest) => other_choice(alloc, rest),
        None => alone(Form::Else, tokens),
    }
}

#[tactic(auto, unfolding(crate::specs::Forms::form_at))]
fn form(alloc: Global, tokens: &[Lexed]) -> Result<Form, Unread>
    ensures { Gives v.form result (f.form_at tokens.now) }
{
    match word_at(tokens) {
        Some((Word::Program, rest)) => program(alloc, rest),
        Some((Word::Subroutine, rest)) => subroutine(alloc, rest),
        Some((Word::End, rest)) => end(alloc, rest),
        Some((Word::EndDo, rest)) => alone(Form::EndDo, rest),
        Some((Word::EndIf, rest)) => alone(Form::EndIf, rest),
        Some((Word::EndDoall, rest)) => alone(Form::EndDoall, rest),
        Some((Word::Integer, rest)) => integer(alloc, rest),
        Some((Word::Implicit, rest)) => implicit(rest),
        Some((Word::Do, rest)) => counted(alloc, rest),
        Some((Word::Doall, rest)) => doall(alloc, rest),
        Some((Word::If, rest)) => choice(alloc, rest),
        Some((Word::Else, rest)) => otherwise(alloc, rest),
        Some((Word::ElseIf, rest)) => other_choice(alloc, rest),
        _ => simple(alloc, tokens),
    }
}

/// The statement that the tokens of a line are.
pub(crate) fn statement(alloc: Global, tokens: &[Lexed]) -> Result<Statement, Unread>
    ensures { Gives v.statement result (f.statement_at tokens.now) }
{
    let place = place_at(tokens)?;
    let form = form(alloc, tokens)?;
    Ok(Statement { place, form })
}
