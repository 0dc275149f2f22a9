//! One physical line.

ghost use Rattle.std.specs.Prelude.{◌≡◌, ◌⊎◌, ◌<◌, ◌≤◌, ◌^◌, true, false, length, IfOk, IfErr};
ghost use Rattle.cdc_token.specs.Pieces as pieces;
ghost use Rattle.cdc_token.specs.Refusals as refusals;
ghost use Rattle.cdc_token.specs.Taking as spec;

use crate::bytes::{is_blank, is_quote};
use crate::fault::{Fault, LineRefusal};
use crate::gathered::Gathered;
use crate::meaning::meaning_of;
use crate::piece::{Kind, piece_at};
use cdc_base::Place;
use std::alloc::Global;

/// The most bytes of a line, its end aside (ISO/IEC 1539:1991, section 3.3.1).
const MAX_LINE: usize = 132;

/// Blanks, and then nothing or a comment.
fn says_nothing(z: &[u8]) -> bool
    ensures { result ≡ pieces.says_nothing z.now }
{
    for b in z {
        if *b == b'!' {
            return true;
        }
        if !is_blank(*b) {
            return false;
        }
    }
    true
}

/// A mark may stand behind this piece as the first byte of a line that is continued to.
fn still_first(kind: Kind, first: bool) -> bool
    ensures { result ≡ pieces.still_first kind first }
{
    match kind {
        Kind::Blank => first,
        _ => false,
    }
}

/// Whether the line is continued, as far as this piece; blanks and comments leave it as it was.
fn still_open(kind: Kind, goes_on: bool) -> bool
    ensures { result ≡ pieces.still_open kind goes_on }
{
    match kind {
        Kind::Blank | Kind::Comment => goes_on,
        Kind::Mark => true,
        Kind::Semicolon | Kind::Text | Kind::Name | Kind::Number | Kind::Symbol => false,
    }
}

/// A mark that is neither the first byte of a line that is continued to nor the last of its line.
fn is_stray(kind: Kind, first: bool, after: &[u8]) -> bool
    ensures stray { result ≡ true → (kind ≡ Kind.Mark) × (first ≡ false) × (pieces.says_nothing after.now ≡ false) }
    ensures fine { result ≡ false → kind ≡ Kind.Mark → (first ≡ true) ⊎ (pieces.says_nothing after.now ≡ true) }
{
    match kind {
        Kind::Mark => !first && !says_nothing(after),
        _ => false,
    }
}

/// The fault where no piece begins.
fn nothing_begins(z: &[u8]) -> Fault
    requires some { 0 < length z.now }
    requires none { pieces.NoPiece z.now }
    ensures { spec.IsStop z.now result }
{
    if is_quote(z[0]) {
        Fault::OpenText
    } else {
        Fault::BadByte
    }
}

/// Takes the pieces of the line of this number, or gives the first fault among them. The flag: the line before is continued.
/// The answer: this one is.
fn take_pieces(
    gathered: &mut Gathered,
    alloc: Global,
    number: u32,
    continued: bool,
    line: &[u8],
) -> Result<bool, LineRefusal>
    requires { length line.now < 2 ^ 20 }
    ensures ok { IfOk result (λ on. spec.TakesPieces continued line.now number gathered.old gathered.new on) }
    ensures seen { IfErr result (λ e. spec.Sees continued line.now e) }
{
    let mut rest = line;
    let mut column = 1;
    let mut first = continued;
    let mut goes_on = continued;
    while !rest.is_empty() {
        let Some((kind, n)) = piece_at(rest) else {
            return Err(LineRefusal::At(nothing_begins(rest), column));
        };
        let (bytes, after) = rest.split_at(n);
        if is_stray(kind, first, after) {
            return Err(LineRefusal::At(Fault::BadByte, column));
        }
        let means = meaning_of(alloc, kind, bytes, column)?;
        let place = Place {
            line: number,
            column,
        };
        gathered.add(means, place)?;
        first = still_first(kind, first);
        goes_on = still_open(kind, goes_on);
        column += n as u32;
        rest = after;
    }
    Ok(goes_on)
}

/// The first fault of a line, by the first one among its pieces: that the line is too long may come before it.
fn with_limit(seen: Result<bool, LineRefusal>, len: usize) -> Result<bool, LineRefusal>
    ensures { result ≡ spec.with_limit len seen }
{
    match seen {
        Err(LineRefusal::Memory) => Err(LineRefusal::Memory),
        Err(LineRefusal::At(fault, column)) if column <= MAX_LINE as u32 || len <= MAX_LINE => {
            Err(LineRefusal::At(fault, column))
        }
        Ok(goes_on) if len <= MAX_LINE => Ok(goes_on),
        _ => Err(LineRefusal::At(Fault::LineLong, MAX_LINE as u32 + 1)),
    }
}

/// Takes the line of this number, or gives its first fault; want of memory may come at any time.
/// The flag: the line before is continued. The answer: this one is.
pub fn take_line(
    gathered: &mut Gathered,
    alloc: Global,
    number: u32,
    continued: bool,
    line: &[u8],
) -> Result<bool, LineRefusal>
    requires { length line.now < 2 ^ 20 }
    ensures ok { IfOk result (λ on. spec.TakesLine continued line.now number gathered.old gathered.new on) }
    ensures fault { IfErr result (λ e. spec.Fails continued line.now e) }
{
    let seen = take_pieces(gathered, alloc, number, continued, line);
    let goes_on = with_limit(seen, line.len())?;
    if !goes_on {
        gathered.close()?;
    }
    Ok(goes_on)
}
