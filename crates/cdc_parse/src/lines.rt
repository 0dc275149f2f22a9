//! The statements of logical lines.

ghost use Rattle.std.specs.Prelude.{◌≡◌, ◌≤◌, map, true, false, IfOk};
ghost use Rattle.cdc_token.specs.Lines.{line_of};
ghost use Rattle.cdc_parse.specs.Depth.{opened, IsDeep};
ghost use Rattle.cdc_tree.specs.Forms.{statement};
ghost use Rattle.cdc_tree.specs.Order.{Each, InOrder};
ghost use Rattle.cdc_parse.specs.Lines.{Ascend, IsNumbered, SomeLine, IsWithin, IsStatement, IsForemost, AreStatements};

use crate::heads::statement;
use crate::refusal::Unread;
use cdc_base::List;
use cdc_token::{Lexed, Line, Lines, LinesFrom, Symbol, Token};
use cdc_tree::{ParseRefusal, Statement};
use std::alloc::Global;

/// At most so many parentheses are open at one place of a line.
const MOST_OPEN: u32 = 64;

/// A logical line has at most so many tokens.
const MOST_TOKENS: usize = 4096;

/// How many parentheses are open after the token. One that closes none is passed over.
fn opened(token: &Token, before: u32) -> u32
    requires { before ≤ 64 }
    ensures { result ≡ opened token.now before }
{
    match token {
        Token::Symbol(Symbol::LeftParen) => before + 1,
        Token::Symbol(Symbol::RightParen) => before.saturating_sub(1),
        _ => before,
    }
}

/// Whether the line is over a limit of depth.
fn is_deep(tokens: &[Lexed]) -> bool
    ensures deep { result ≡ true → IsDeep tokens.now }
    ensures within { result ≡ false → IsWithin tokens.now }
{
    if tokens.len() > MOST_TOKENS {
        return true;
    }
    let mut count = 0;
    for lexed in tokens {
        count = opened(&lexed.token, count);
        if count > MOST_OPEN {
            return true;
        }
    }
    false
}

/// Whether the line has this number and is over a limit of depth.
fn deep_here(line: Line, number: u32) -> bool
    ensures deep { result ≡ true → (line.entry.line ≡ number) × IsDeep line.entry.tokens.now }
    ensures within { result ≡ false → line.entry.line ≡ number → IsWithin line.entry.tokens.now }
{
    if line.line == number {
        return is_deep(line.tokens);
    }
    false
}

/// Whether one of the lines has this number and is over a limit of depth.
fn any_deep(lines: LinesFrom, number: u32) -> bool
    ensures deep { result ≡ true → SomeLine lines.entry number IsDeep }
    ensures within { result ≡ false → Each (λ l. l.line ≡ number → IsWithin l.tokens) lines.entry }
{
    let mut rest = lines;
    while let Some((line, after)) = rest.split_first() {
        if deep_here(line, number) {
            return true;
        }
        rest = after;
    }
    false
}

/// The statement of one line.
pub(crate) fn line_statement(alloc: Global, line: Line) -> Result<Statement, ParseRefusal>
    ensures { IsStatement (line_of line.entry) result }
{
    if is_deep(line.tokens) {
        return Err(ParseRefusal::Depth(line.line));
    }
    match statement(alloc, line.tokens) {
        Ok(statement) => Ok(statement),
        Err(Unread::NotAStatement) => Err(ParseRefusal::NotAStatement(line.line)),
        Err(Unread::Memory) => Err(ParseRefusal::Memory),
    }
}

/// The refusal of a line, where further lines may have the same number: one that is over a limit
/// of depth comes before one that is no statement.
fn first_refusal(refusal: ParseRefusal, further: LinesFrom) -> ParseRefusal
    ensures { IsForemost further.entry refusal result }
{
    match refusal {
        ParseRefusal::NotAStatement(number) => {
            if any_deep(further, number) {
                ParseRefusal::Depth(number)
            } else {
                ParseRefusal::NotAStatement(number)
            }
        }
        _ => refusal,
    }
}

/// The statements of the lines, one for each.
fn each_statement(alloc: Global, lines: &Lines) -> Result<List<Statement>, ParseRefusal>
    requires { Ascend lines.now }
    ensures { AreStatements lines.now result }
{
    let mut statements = Vec::new(alloc);
    let mut rest = lines.all();
    while let Some((line, after)) = rest.split_first() {
        match line_statement(alloc, line) {
            Ok(statement) => statements.push(statement)?,
            Err(refusal) => return Err(first_refusal(refusal, after)),
        }
        rest = after;
    }
    Ok(List::of(statements))
}

/// The statements of logical lines, one for each. The lines are those of a source, in order.
///
/// The least line is refused, and on one line `Depth` comes before `NotAStatement`. `Nesting` is
/// never answered.
pub fn statements(alloc: Global, lines: &Lines) -> Result<List<Statement>, ParseRefusal>
    requires { Ascend lines.now }
    ensures answer { AreStatements lines.now result }
    // Where each line has the number of its first token, the statements are in order too.
    ensures ordered { Each IsNumbered lines.now → IfOk result (λ found. InOrder (map statement found)) }
{
    each_statement(alloc, lines)
}
