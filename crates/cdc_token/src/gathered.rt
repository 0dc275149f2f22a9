//! Tokens gathered into logical lines.

ghost use Rattle.std.specs.Prelude.{◌≡◌, ◌∷◌, [], OnOk, None};
ghost use Rattle.cdc_token.specs.Tokens.{items_of};

use crate::lines::Lines;
use crate::meaning::Meaning;
use crate::token::Lexed;
use cdc_base::Place;
use std::alloc::{AllocError, Global};
use std::marker::Model;

/// The tokens so far, how many of them each logical line has that has ended, and how many the one has that is begun.
#[derive(Debug, Drop)]
pub struct Gathered {
    tokens: Vec<Lexed>,
    lengths: Vec<usize>,
    begun: usize,
}

impl Model for Gathered {
    ghost use Rattle.cdc_token.specs.Lines.{Parts, cut, behind, Leaves};

    ghost Value = { Parts };

    ghost view = { λ g. record { done = cut g.lengths.items g.tokens.items; begun = behind g.lengths.items g.tokens.items } };

    ghost invariant = { λ g. Leaves g.lengths.items g.begun g.tokens.items };
}

impl Gathered {
    ghost use Rattle.cdc_token.specs.Taking as spec;

    /// Nothing yet.
    pub fn new(alloc: Global) -> Gathered
        ensures done { result.done ≡ [] }
        ensures begun { result.begun ≡ [] }
    {
        Gathered {
            tokens: Vec::new(alloc),
            lengths: Vec::new(alloc),
            begun: 0,
        }
    }

    /// Ends the logical line that is begun, if it has a token.
    pub fn close(&mut self) -> Result<(), AllocError>
        ensures taken { OnOk result (spec.Takes self.old self.new (None ∷ [])) }
        ensures empty { OnOk result (self.new.begun ≡ []) }
    {
        if 0 < self.begun {
            self.lengths.push(self.begun)?;
            self.begun = 0;
        }
        Ok(())
    }

    /// Takes what a piece at this place means.
    pub fn add(&mut self, meaning: Meaning, place: Place) -> Result<(), AllocError>
        ensures { OnOk result (spec.Takes self.old self.new (items_of place meaning)) }
    {
        match meaning {
            Meaning::Nothing => Ok(()),
            Meaning::End => self.close(),
            Meaning::Token(token) => {
                self.tokens.push(Lexed { token, place })?;
                self.begun += 1;
                Ok(())
            }
        }
    }

    /// The logical lines, where none is begun.
    pub fn into_lines(self) -> Lines
        requires { self.begun ≡ [] }
        ensures { result ≡ self.done }
    {
        let Gathered {
            tokens,
            lengths,
            begun: _,
        } = self;
        Lines::of(tokens, lengths)
    }
}
