// The next line that gives events.
ghost use Rattle.std.specs.Prelude.{◌<◌, ◌+◌, ◌^◌, length};
ghost use Rattle.cdc_sched.specs.ListedLines.{NextListed};

use crate::event::Repeated;
use crate::event_line::read_event;
use crate::kept::next_kept;

// A line with its events, the number of lines up to it, and what stands behind it.
#[derive(Clone, Copy)]
pub(crate) struct ListedLine<'a> {
    pub(crate) repeated: Repeated,
    pub(crate) above: u32,
    pub(crate) after: &'a [u8],
}

// The next line that gives events, of bytes below so many lines; else the number of the line that has no form, if any.
pub(crate) fn next_listed(
    bytes: &[u8],
    above: u32,
    procs: u32,
) -> Result<Option<ListedLine<'_>>, u32>
    requires { above + 1 + length bytes.now < 2 ^ 32 }
    ensures { NextListed procs bytes.now above result }
{
    let Ok(kept) = next_kept(bytes, above + 1) else {
        return Ok(None);
    };
    match read_event(kept.line, procs) {
        Some(repeated) => Ok(Some(ListedLine {
            repeated,
            above: kept.number,
            after: kept.after,
        })),
        None => Err(kept.number),
    }
}
