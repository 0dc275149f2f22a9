//! The logical lines of a source, all tokens in one list.

ghost use Rattle.std.specs.Prelude.{◌≡◌, ◌∷◌, [], MatchOption};
ghost use Rattle.cdc_token.specs.Lines.{cut, Leaves, line_of};

use crate::token::Lexed;
use std::marker::Model;

/// A logical line: its tokens, at least one, and the line of the first.
#[derive(Clone, Copy, Debug)]
pub struct Line<'a> {
    pub line: u32,
    pub tokens: &'a [Lexed],
}

/// The logical lines of a source: its tokens, and how many of them each line has.
#[derive(Debug, Drop)]
pub struct Lines {
    tokens: Vec<Lexed>,
    lengths: Vec<usize>,
}

impl Model for Lines {
    ghost use Rattle.std.specs.Prelude.{List};
    ghost use Rattle.cdc_token.specs.Lines.{Line, cut, Leaves};

    ghost Value = { List Line };

    ghost view = { λ l. cut l.lengths.items l.tokens.items };

    ghost invariant = { λ l. Leaves l.lengths.items 0 l.tokens.items };
}

impl Lines {
    /// The lines that have so many of the tokens each.
    pub(crate) fn of(tokens: Vec<Lexed>, lengths: Vec<usize>) -> Lines
        requires { Leaves lengths.items 0 tokens.items }
        ensures { result ≡ cut lengths.items tokens.items }
    {
        Lines { tokens, lengths }
    }

    /// All of them, to be walked over.
    pub fn all(&self) -> LinesFrom<'_>
        ensures { result ≡ self.now }
    {
        LinesFrom {
            tokens: self.tokens.as_slice(),
            lengths: self.lengths.as_slice(),
        }
    }
}

/// The logical lines of a source from one on.
#[derive(Debug, Drop)]
pub struct LinesFrom<'a> {
    tokens: &'a [Lexed],
    lengths: &'a [usize],
}

impl<'a> Model for LinesFrom<'a> {
    ghost use Rattle.std.specs.Prelude.{List};
    ghost use Rattle.cdc_token.specs.Lines.{Line, cut, Leaves};

    ghost Value = { List Line };

    ghost view = { λ l. cut l.lengths.now l.tokens.now };

    ghost invariant = { λ l. Leaves l.lengths.now 0 l.tokens.now };
}

impl<'a> LinesFrom<'a> {
    /// The first line and those behind it.
    pub fn split_first(self) -> Option<(Line<'a>, LinesFrom<'a>)>
        ensures { MatchOption result (self.entry ≡ []) (λ p. self.entry ≡ line_of p.0 ∷ p.1) }
    {
        let [length, lengths @ ..] = self.lengths else {
            return None;
        };
        let (tokens, after) = self.tokens.split_at(*length);
        let line = tokens[0].place.line;
        let further = LinesFrom {
            tokens: after,
            lengths,
        };
        Some((Line { line, tokens }, further))
    }
}
