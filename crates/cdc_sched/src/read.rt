//! The reading of a header.

ghost use Rattle.std.specs.Prelude.{◌≡◌, ◌<◌, ◌≤◌, ◌+◌, ◌^◌, ℕ, length, Some, None, Err, IfOk, IfErr, IsOk};
ghost use Rattle.cdc_sched.specs.declared.header.Header.{Header as FileHeader};
ghost use Rattle.cdc_sched.specs.Headers.{HasHeader, IsBadHeader, bad_number};
ghost use Rattle.cdc_sched.specs.Kept.{IsNextKept, HasNoKept};

use crate::fit::{
    bound_line, cache_line, events_line, procs_line, scheme_line, tail_line, version_line,
};
use crate::header::Header;
use crate::kept::{Kept, next_kept};

/// Why a file has no header.
#[derive(Clone, Copy, Debug, PartialEq, Eq)]
pub enum HeaderRefusal {
    /// The line of this number does not fit its place, or the file ends before it.
    BadHeader(u32),
}

/// The header of a schedule file, and the place of the first byte behind its last line.
///
/// # Errors
///
/// `BadHeader` with the number of the first line that does not fit its place, from 1. Where the file ends before the
/// line `events`, it is the number of lines and 1 more.
pub fn read_header(bytes: &[u8]) -> Result<(Header, u64), HeaderRefusal>
    requires { length bytes.now ≤ 16777216 }
    ensures header { IfOk result (λ r. HasHeader bytes.now r.0 r.1) }
    ensures refused { IfErr result (λ e. IsBadHeader bytes.now (bad_number e)) }
    ensures accepts { (header : FileHeader) (at : ℕ) → HasHeader bytes.now header at → IsOk result }
    ensures refuses { (number : ℕ) → IsBadHeader bytes.now number → result ≡ Err (HeaderRefusal.BadHeader number) }
{
    read_lines(bytes)
}

// The header, line by line.
fn read_lines(bytes: &[u8]) -> Result<(Header, u64), HeaderRefusal>
    requires { length bytes.now ≤ 16777216 }
    ensures header { IfOk result (λ r. HasHeader bytes.now r.0 r.1) }
    ensures refused { IfErr result (λ e. IsBadHeader bytes.now (bad_number e)) }
{
    let first = header_line(bytes, 1)?;
    fitting(&first, version_line(first.line))?;
    let second = header_line(first.after, first.number + 1)?;
    let scheme = fitting(&second, scheme_line(second.line))?;
    let third = header_line(second.after, second.number + 1)?;
    let procs = fitting(&third, procs_line(third.line))?;
    let fourth = header_line(third.after, third.number + 1)?;
    let geometry = fitting(&fourth, cache_line(fourth.line, procs))?;
    let fifth = header_line(fourth.after, fourth.number + 1)?;
    let bound = fitting(&fifth, bound_line(fifth.line))?;
    let sixth = header_line(fifth.after, fifth.number + 1)?;
    let tail = fitting(&sixth, tail_line(sixth.line))?;
    let last = header_line(sixth.after, sixth.number + 1)?;
    fitting(&last, events_line(last.line))?;
    let header = Header {
        scheme: scheme.name,
        width: scheme.width,
        procs,
        geometry,
        bound,
        tail,
    };
    Ok((header, (bytes.len() - last.after.len()) as u64))
}

// The next line that is not skipped, of bytes whose first line has this number.
fn header_line(bytes: &[u8], number: u32) -> Result<Kept<'_>, HeaderRefusal>
    requires { number + length bytes.now < 2 ^ 32 }
    ensures found { IfOk result (λ kept. IsNextKept bytes.now number kept) }
    ensures none { IfErr result (λ e. HasNoKept bytes.now number (bad_number e)) }
{
    match next_kept(bytes, number) {
        Ok(kept) => Ok(kept),
        Err(after) => Err(HeaderRefusal::BadHeader(after)),
    }
}

// What a line says, or its refusal.
fn fitting<T: Drop>(kept: &Kept<'_>, said: Option<T>) -> Result<T, HeaderRefusal>
    ensures found { IfOk result (λ value. said ≡ Some value) }
    ensures refused { IfErr result (λ e. (said ≡ None) × (bad_number e ≡ kept.now.number)) }
{
    match said {
        Some(value) => Ok(value),
        None => Err(HeaderRefusal::BadHeader(kept.number)),
    }
}
