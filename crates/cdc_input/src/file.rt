// The lines of the file, one record each.
ghost use Rattle.std.specs.Prelude.{◌≡◌, ℕ, ◌<◌, ◌≤◌, ◌^◌, ◌∷◌, ◌==◌, length, position, IfOk, IfErr, OnOk};
ghost use Rattle.std.specs.Str.Lines.{lines, strip_carriage_return};
ghost use Rattle.cdc_input.specs.Records.{records_of};
ghost use Rattle.cdc_input.specs.Refusals.{HasNoFault, Fails};

use crate::line::line_values;
use cdc_base::{List, Place};
use std::alloc::{AllocError, AllocFailed, Global};

/// The values of each line of an input file, in order. A line without a value is a record too.
#[derive(Debug, Drop)]
pub struct InputRecords {
    pub records: List<List<i64>>,
}

/// Why a file has no records.
#[derive(Clone, Copy, Debug, PartialEq, Eq)]
pub enum InputRefusal {
    /// At this place stands what is no value, or a comma that has no value before it.
    BadNumber(Place),
    /// Memory ran out.
    Memory,
}

impl From<AllocError> for InputRefusal {
    ghost use Rattle.std.specs.Prelude.{◌≡◌};
    ghost use Rattle.cdc_input.specs.declared.file.InputRefusal.TheVariants.{Memory};

    ghost from_gives = { λ _ e. e ≡ Memory };

    fn from(_error: AllocError) -> InputRefusal {
        InputRefusal::Memory
    }
}

impl<T: Drop> From<AllocFailed<T>> for InputRefusal {
    ghost use Rattle.std.specs.Prelude.{◌≡◌};
    ghost use Rattle.cdc_input.specs.declared.file.InputRefusal.TheVariants.{Memory};

    ghost from_gives = { λ _ e. e ≡ Memory };

    fn from(_error: AllocFailed<T>) -> InputRefusal {
        InputRefusal::Memory
    }
}

/// The records of list-directed input (ISO/IEC 1539:1991, section 10.8): a line ends by LF or
/// CR LF, and a last line without an end is a record where it is not empty. Between two values
/// stand blanks, or one comma with or without blanks; one comma may end a record that has a
/// value. Lines and columns count from 1.
///
/// # Errors
///
/// `BadNumber` with the place of the first run of bytes between blanks, commas and ends of
/// lines that is no value, or of the first comma that has no value before it since the last
/// comma or the start of its record, whichever is first; `Memory` where memory runs out.
pub fn records(alloc: Global, bytes: &[u8]) -> Result<InputRecords, InputRefusal>
    requires { length bytes.now < 2 ^ 31 }
    ensures records { IfOk result (λ r. r.records ≡ records_of bytes.now) }
    ensures good { OnOk result (HasNoFault bytes.now) }
    ensures bad { IfErr result (λ e. Fails bytes.now e) }
{
    let mut records = Vec::new(alloc);
    let mut rest = bytes;
    let mut number = 1;
    while !rest.is_empty() {
        let (line, after) = next_line(rest);
        let values = line_values(alloc, number, line)?;
        records.push(List::of(values))?;
        number += 1;
        rest = after;
    }
    Ok(InputRecords {
        records: List::of(records),
    })
}

// The first line without its end, and what stands behind that end.
fn next_line(bytes: &[u8]) -> (&[u8], &[u8])
    requires { 0 < length bytes.now }
    ensures lines { lines bytes.now ≡ result.0.now ∷ lines result.1.now }
    ensures line { length result.0.now ≤ length bytes.now }
    ensures after { length result.1.now < length bytes.now }
{
    match line_feed(bytes) {
        Some(end) => (without_return(&bytes[..end]), &bytes[end + 1..]),
        None => (bytes, &bytes[bytes.len()..]),
    }
}

// The place of the first line feed.
fn line_feed(bytes: &[u8]) -> Option<usize>
    ensures { result ≡ position (λ b. b == 10) bytes.now }
{
    bytes.iter().position(|byte| *byte == b'\n')
}

// What stands before a line feed, without a carriage return right before that.
fn without_return(line: &[u8]) -> &[u8]
    ensures value { result.now ≡ strip_carriage_return line.now }
    ensures within { length result.now ≤ length line.now }
{
    match line {
        [front @ .., b'\r'] => front,
        _ => line,
    }
}
