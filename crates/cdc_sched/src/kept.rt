// The lines that are not skipped.
ghost use Rattle.std.specs.Prelude.{◌<◌, ◌+◌, ◌^◌, length, IfOk, IfErr};
ghost use Rattle.cdc_sched.specs.Kept.{IsNextKept, HasNoKept};

use crate::line::next_line;
use crate::phrase::is_skipped;

// A line that is not skipped, with its number and what stands behind it.
#[derive(Clone, Copy)]
pub(crate) struct Kept<'a> {
    pub(crate) line: &'a [u8],
    pub(crate) number: u32,
    pub(crate) after: &'a [u8],
}

// The next line that is not skipped, of bytes whose first line has this number; else the number behind the last line.
pub(crate) fn next_kept(bytes: &[u8], number: u32) -> Result<Kept<'_>, u32>
    requires { number + length bytes.now < 2 ^ 32 }
    ensures found { IfOk result (λ kept. IsNextKept bytes.now number kept) }
    ensures none { IfErr result (λ after. HasNoKept bytes.now number after) }
{
    let mut rest = bytes;
    let mut at = number;
    while !rest.is_empty() {
        let (line, after) = next_line(rest);
        if !is_skipped(line) {
            return Ok(Kept {
                line,
                number: at,
                after,
            });
        }
        rest = after;
        at += 1;
    }
    Err(at)
}
