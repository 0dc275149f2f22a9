//! Reads of the words of a set, and a boundary over its lines.

ghost use Rattle.std.specs.Prelude.{◌≡◌, ℕ, ◌<◌, ◌/◌, ◌-◌, ◌^◌, min, length, sum_by, All, IsTrue};
ghost use Rattle.std.specs.List.Sorted.{IsStrictlyIncreasing};
ghost use Rattle.cdc_cache.specs.Lines.{served as served_of, read_value, hit_of as hit_by, after_boundary, lost_count};
ghost use Rattle.cdc_cache.specs.Sets.{set_lines, IsSized, set_access, set_after_read, AreKept, lost_in_set};

use crate::fill::keep_lines;
use crate::miss::miss;
use crate::set::Set;
use crate::{Access, Copied, Words};
use cdc_prog::Mark;
use cdc_scheme::Scheme;

// The value of a copy that a read of word `x` may use.
fn served<S: Scheme>(
    state: &S::State,
    memory: &Words,
    x: u32,
    mark: Mark,
    copied: Option<Copied<S::Word>>,
) -> Option<i64>
    requires within { x < length memory.now.cells }
    requires owned { length memory.now.owner ≡ length memory.now.cells }
    requires objects { All (λ object. IsTrue (S.has_object state.now object)) memory.now.owner }
    ensures { result ≡ served_of S.Scheme state.now memory.now x mark copied }
{
    let copied = copied?;
    let object = memory.owner.as_slice()[x as usize];
    if S::admits(state, object, mark, copied.stamp) {
        Some(copied.value)
    } else {
        None
    }
}

// A hit of a read with this mark.
fn hit_of(mark: Mark) -> Access
    ensures { result ≡ hit_by mark }
{
    match mark {
        Mark::Ordinary => Access::OrdinaryHit,
        Mark::Time(_) => Access::MarkedHit,
    }
}

/// Reads word `x` in its set, of lines of `words` words.
pub(crate) fn read_in<S: Scheme>(
    set: &mut Set<S::Word>,
    state: &S::State,
    memory: &Words,
    words: u32,
    x: u32,
    mark: Mark,
) -> (i64, Access)
    requires some { 0 < words }
    requires within { x < length memory.now.cells }
    requires owned { length memory.now.owner ≡ length memory.now.cells }
    requires objects { All (λ object. IsTrue (S.has_object state.now object)) memory.now.owner }
    ensures value { result.0 ≡ read_value S.Scheme state.now memory.now words (set_lines set.old) x mark }
    ensures access { (ways : ℕ) → IsSized words ways set.old →
        result.1 ≡ set_access S.Scheme state.now memory.now words ways (set_lines set.old) x mark }
    ensures lines { (ways : ℕ) → IsSized words ways set.old →
        (set_lines set.new ≡ set_after_read S.Scheme state.now memory.now words ways (set_lines set.old) x mark) × IsSized words ways set.new }
{
    let found = set.place_of((x / words) as u64);
    let copied = set.copy_of(found, (x % words) as usize);
    if let Some(value) = served::<S>(state, memory, x, mark, copied) {
        return (value, hit_of(mark));
    }
    let evicted = set.lacks_room(found);
    miss::<S>(set, found, state, memory, words, x);
    (
        memory.cells.as_slice()[x as usize],
        Access::Miss { evicted },
    )
}

/// Passes the lines of a set, of `words` words, through a boundary; how many words become invalid, or the last value of u64.
pub(crate) fn keep_in<S: Scheme>(
    set: &mut Set<S::Word>,
    state: &S::State,
    memory: &Words,
    words: u32,
    written: &[u32],
) -> u64
    requires owned { length memory.now.owner ≡ length memory.now.cells }
    requires objects { All (λ object. IsTrue (S.has_object state.now object)) memory.now.owner }
    requires known { All (λ object. IsTrue (S.has_object state.now object)) written.now }
    requires order { IsStrictlyIncreasing written.now }
    ensures lines { set_lines set.new ≡ after_boundary S.Scheme state.now memory.now words written.now (set_lines set.old) }
    ensures sized { (ways : ℕ) → IsSized words ways set.old → IsSized words ways set.new }
    ensures lost { result ≡ min (lost_count S.Scheme state.now memory.now words written.now (set_lines set.old)) (2 ^ 64 - 1) }
{
    keep_lines::<S>(&mut set.lines, set.used, state, memory, words, written)
}

/// Passes the lines of all sets through a boundary, as `keep_in` does.
pub(crate) fn keep_sets<S: Scheme>(
    sets: &mut [Set<S::Word>],
    state: &S::State,
    memory: &Words,
    words: u32,
    written: &[u32],
) -> u64
    requires owned { length memory.now.owner ≡ length memory.now.cells }
    requires objects { All (λ object. IsTrue (S.has_object state.now object)) memory.now.owner }
    requires known { All (λ object. IsTrue (S.has_object state.now object)) written.now }
    requires order { IsStrictlyIncreasing written.now }
    ensures sets { AreKept S.Scheme state.now memory.now words written.now sets.old sets.new }
    ensures lost { result ≡ min (sum_by (lost_in_set S.Scheme state.now memory.now words written.now) sets.old) (2 ^ 64 - 1) }
{
    let mut lost: u64 = 0;
    for place in 0..sets.len() {
        let words_lost = keep_in::<S>(&mut sets[place], state, memory, words, written);
        lost = lost.saturating_add(words_lost);
    }
    lost
}
