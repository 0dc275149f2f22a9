//! What may be wrong in a line.

ghost use Rattle.std.specs.Prelude.{◌≡◌};
ghost use Rattle.cdc_token.specs.Taking as spec;
ghost use Rattle.cdc_token.specs.declared.fault.LineRefusal.TheVariants.{Memory};

use crate::token::LexRefusal;
use cdc_base::Place;
use std::alloc::AllocError;

/// What is wrong at a column of a line.
#[derive(Clone, Copy, Debug, PartialEq, Eq)]
pub enum Fault {
    BadByte,
    OpenText,
    NameLong,
    NumberWide,
    LineLong,
}

/// Why a line is refused: a fault and its column, from 1, or want of memory.
#[derive(Clone, Copy, Debug)]
pub enum LineRefusal {
    At(Fault, u32),
    Memory,
}

impl From<AllocError> for LineRefusal {
    ghost from_gives = { λ _ e. e ≡ Memory };

    fn from(_error: AllocError) -> LineRefusal {
        LineRefusal::Memory
    }
}

/// The refusal of a source by a fault at a place.
fn refusal(fault: Fault, place: Place) -> LexRefusal
    ensures { result ≡ spec.refusal fault place }
{
    match fault {
        Fault::BadByte => LexRefusal::BadByte(place),
        Fault::OpenText => LexRefusal::OpenText(place),
        Fault::NameLong => LexRefusal::NameLong(place),
        Fault::NumberWide => LexRefusal::NumberWide(place),
        Fault::LineLong => LexRefusal::LineLong(place),
    }
}

/// The refusal of a source by that of its line with this number.
pub fn in_line(line: u32, found: LineRefusal) -> LexRefusal
    ensures { result ≡ spec.in_line line found }
{
    match found {
        LineRefusal::Memory => LexRefusal::Memory,
        LineRefusal::At(fault, column) => refusal(fault, Place { line, column }),
    }
}
