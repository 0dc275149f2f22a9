//! Why a source has no statements or units.

use std::alloc::{AllocError, AllocFailed};

/// Why logical lines are no statements, or statements no units, with the number of a line.
#[derive(Clone, Copy, Debug, PartialEq, Eq)]
pub enum ParseRefusal {
    /// A logical line is no statement of the language.
    NotAStatement(u32),
    /// More than 64 parentheses are open at one place, a logical line has more than 4,096 tokens,
    /// or a statement opens a 65th block.
    Depth(u32),
    /// A statement does not fit the open blocks or the order of a unit, or the file ends too early.
    Nesting(u32),
    Memory,
}

impl From<AllocError> for ParseRefusal {
    ghost use Rattle.std.specs.Prelude.{◌≡◌};
    ghost use Rattle.cdc_tree.specs.declared.refusal.ParseRefusal.TheVariants.{Memory};

    ghost from_gives = { λ _ e. e ≡ Memory };

    fn from(_: AllocError) -> ParseRefusal {
        ParseRefusal::Memory
    }
}

impl<T: Drop> From<AllocFailed<T>> for ParseRefusal {
    ghost use Rattle.std.specs.Prelude.{◌≡◌};
    ghost use Rattle.cdc_tree.specs.declared.refusal.ParseRefusal.TheVariants.{Memory};

    ghost from_gives = { λ _ e. e ≡ Memory };

    fn from(_: AllocFailed<T>) -> ParseRefusal {
        ParseRefusal::Memory
    }
}
