use cdc_base::{NoMemory, Place};
use cdc_check::CheckRefusal;
use cdc_token::LexRefusal;
use cdc_tree::ParseRefusal;

/// Why a source is no program: the refusal of the first stage that has one.
///
/// Want of memory is always `Memory`, never a variant of that name in a part. A source of more than 262,144 bytes is
/// `Check(TooMany(Kind::Source))`, and a statement that is not built yet `Parse(NotAStatement)`.
#[derive(Clone, Copy, Debug, PartialEq, Eq)]
pub enum Refusal {
    Lex(LexRefusal),
    Parse(ParseRefusal),
    Check(CheckRefusal),
    /// The first pair of references of the first DOALL that fails the dependence test.
    Conflict(Place, Place),
    Memory,
}

impl From<LexRefusal> for Refusal {
    ghost use Rattle.std.specs.Prelude.{◌≡◌};
    ghost use Rattle.cdc_compile.specs.Refusals.{of_lex};

    ghost from_gives = { λ part whole. whole ≡ of_lex part };

    fn from(refusal: LexRefusal) -> Refusal {
        match refusal {
            LexRefusal::Memory => Refusal::Memory,
            _ => Refusal::Lex(refusal),
        }
    }
}

impl From<ParseRefusal> for Refusal {
    ghost use Rattle.std.specs.Prelude.{◌≡◌};
    ghost use Rattle.cdc_compile.specs.Refusals.{of_parse};

    ghost from_gives = { λ part whole. whole ≡ of_parse part };

    fn from(refusal: ParseRefusal) -> Refusal {
        match refusal {
            ParseRefusal::Memory => Refusal::Memory,
            _ => Refusal::Parse(refusal),
        }
    }
}

impl From<CheckRefusal> for Refusal {
    ghost use Rattle.std.specs.Prelude.{◌≡◌};
    ghost use Rattle.cdc_compile.specs.Refusals.{of_check};

    ghost from_gives = { λ part whole. whole ≡ of_check part };

    fn from(refusal: CheckRefusal) -> Refusal {
        match refusal {
            CheckRefusal::Memory => Refusal::Memory,
            _ => Refusal::Check(refusal),
        }
    }
}

impl From<NoMemory> for Refusal {
    ghost use Rattle.std.specs.Prelude.{◌≡◌};
    ghost use Rattle.cdc_compile.specs.declared.refusal.Refusal.TheVariants.{Memory};

    ghost from_gives = { λ _ refusal. refusal ≡ Memory };

    fn from(_: NoMemory) -> Refusal {
        Refusal::Memory
    }
}
