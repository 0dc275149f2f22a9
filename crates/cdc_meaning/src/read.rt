// READ.
ghost use Rattle.std.specs.Prelude.{◌≡◌, length, map};
ghost use Rattle.std.specs.List.{All};
ghost use Rattle.cdc_prog.specs.Resolved.{TargetFits};
ghost use Rattle.cdc_prog.specs.Statements.{reads};
ghost use Rattle.cdc_prog.specs.Translation.{target_of};
ghost use Rattle.cdc_meaning.specs.Frames.{shapes_of, binding, IsPlaced};
ghost use Rattle.cdc_prog.specs.Held.{store_of, around};
ghost use Rattle.cdc_meaning.specs.Evaluates.{Steps};
ghost use Rattle.cdc_prog.specs.Unread.{left_of};

use crate::cell::keep;
use crate::expr::{at_line, located};
use crate::frame::Frame;
use cdc_prog::{Fault, Target, Unread};

/// Reads into targets (ISO/IEC 1539:1991, section 10.8.1): for each in order its subscripts, the
/// test of the bounds, the next value and the store; at the end the rest of the record is skipped.
///
/// # Errors
///
/// The first fault, at the line.
pub fn read(
    frame: &Frame,
    words: &mut [i64],
    slots: &mut [i64],
    unread: &mut Unread,
    line: u32,
    targets: &[Target],
) -> Result<(), Fault>
    requires placed { IsPlaced frame.now }
    requires room { length words.old ≡ frame.now.program.now.words }
    requires fits { All (λ t. TargetFits frame.now.program.now.objects (shapes_of frame.now) (length slots.old) (target_of t)) targets.now }
    ensures { Steps (reads (binding frame.now) line (map target_of targets.now)) (around slots.old (left_of unread.old)) (store_of words.old)
        result (around slots.new (left_of unread.new)) (store_of words.new) }
{
    for target in targets {
        let cell = located(frame, words, slots, line, target)?;
        let value = at_line(unread.take(), line)?;
        keep(words, slots, cell, value);
    }
    at_line(unread.end_record(), line)
}
