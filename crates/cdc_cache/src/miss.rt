//! A miss in a set.

ghost use Rattle.std.specs.Prelude.{◌≡◌, ℕ, ◌<◌, ◌/◌, length, Some, All, IsTrue, slice_get, slice_set};
ghost use Rattle.cdc_cache.specs.Lines.{refilled};
ghost use Rattle.cdc_cache.specs.Sets.{set_lines, IsSized, IsPlace, set_after_miss};
ghost use Rattle.cdc_cache.specs.declared.line.Line.{Line as LineOf};

use crate::Words;
use crate::fill::fill_line;
use crate::set::Set;
use cdc_scheme::Scheme;

// Fills the line in a place after a miss of word `x`.
fn fill_at<S: Scheme>(
    set: &mut Set<S::Word>,
    place: usize,
    state: &S::State,
    memory: &Words,
    words: u32,
    x: u32,
)
    requires place { place < length (set_lines set.old) }
    requires owned { length memory.now.owner ≡ length memory.now.cells }
    requires objects { All (λ object. IsTrue (S.has_object state.now object)) memory.now.owner }
    ensures lines { (l : LineOf S.Word) → slice_get (set_lines set.old) place ≡ Some l →
        set_lines set.new ≡ slice_set (set_lines set.old) place (refilled S.Scheme state.now memory.now words x l) }
    ensures sized { (ways : ℕ) → IsSized words ways set.old → IsSized words ways set.new }
{
    fill_line::<S>(&mut set.lines[place], state, memory, words, x);
}

/// A miss of word `x`, whose line is in the place that was found.
pub(crate) fn miss<S: Scheme>(
    set: &mut Set<S::Word>,
    found: Option<usize>,
    state: &S::State,
    memory: &Words,
    words: u32,
    x: u32,
)
    requires some { 0 < words }
    requires place { IsPlace (x / words) (set_lines set.old) found }
    requires owned { length memory.now.owner ≡ length memory.now.cells }
    requires objects { All (λ object. IsTrue (S.has_object state.now object)) memory.now.owner }
    ensures { (ways : ℕ) → IsSized words ways set.old →
        (set_lines set.new ≡ set_after_miss S.Scheme state.now memory.now words ways (set_lines set.old) x) × IsSized words ways set.new }
{
    match found {
        Some(place) => fill_at::<S>(set, place, state, memory, words, x),
        None => {
            let place = set.make_room(x / words);
            fill_at::<S>(set, place, state, memory, words, x);
        }
    }
}
