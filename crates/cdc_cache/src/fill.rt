//! The words of one line: filled by a miss, and passed through a boundary.

ghost use Rattle.std.specs.Prelude.{◌≡◌, ◌<◌, ◌≤◌, ◌++◌, ◌*◌, ◌^◌, ◌-◌, ◌+◌, ◌&&◌, not, nat_lt, if◌then◌else◌, ℕ, length, min, take, drop, All, IsTrue, Some, None, replicate, slice_index};
ghost use Rattle.std.specs.List.Sorted.{IsStrictlyIncreasing};
ghost use Rattle.cdc_cache.specs.Lines.{map_from, filled_word, kept_word, lost_words, with_word, refilled, kept_line, lost_in_line, after_boundary, lost_count};

use crate::{Copied, Line, Words};
use cdc_base::List;
use cdc_scheme::Scheme;

// The number of the first word of a line.
fn first_word(number: u32, words: u32) -> usize
    ensures { result ≡ number * words }
{
    (u64::from(number) * u64::from(words)) as usize
}

// The word `first + j`, where it is in memory.
fn place_in(cells: &[i64], first: usize, j: usize) -> Option<usize>
    ensures { result ≡ (if nat_lt (first + j) (length cells.now) then Some (first + j) else None) }
{
    let y = first.checked_add(j)?;
    if y < cells.len() { Some(y) } else { None }
}

// 1 where a word was valid and is not.
fn loss(before: bool, after: bool) -> u64
    ensures { result ≡ (if before && not after then 1 else 0) }
{
    u64::from(before && !after)
}

// Makes each word invalid.
fn clear<W: Copy>(words: &mut List<Option<Copied<W>>>)
    ensures { words.new ≡ replicate (length words.old) None }
{
    for j in 0..words.as_slice().len() {
        words.set(j, None);
    }
}

// The copy of word `first + j` after a miss of word `x`, from the one that was there.
fn filled<S: Scheme>(
    state: &S::State,
    memory: &Words,
    x: usize,
    first: usize,
    j: usize,
    held: Option<Copied<S::Word>>,
) -> Option<Copied<S::Word>>
    requires owned { length memory.now.owner ≡ length memory.now.cells }
    requires objects { All (λ object. IsTrue (S.has_object state.now object)) memory.now.owner }
    ensures { result ≡ filled_word S.Scheme state.now memory.now x (first + j) held }
{
    let y = place_in(memory.cells.as_slice(), first, j)?;
    let old = match held {
        Some(copied) => Some(copied.stamp),
        None => None,
    };
    let object = memory.owner.as_slice()[y];
    let stamp = if y == x {
        S::target(state, object, old)
    } else {
        S::neighbour(state, object, old)
    };
    Some(Copied {
        value: memory.cells.as_slice()[y],
        stamp,
    })
}

// Fills words, the first of which is word `first` of memory, after a miss of word `x`.
fn fill<S: Scheme>(
    words: &mut List<Option<Copied<S::Word>>>,
    state: &S::State,
    memory: &Words,
    x: usize,
    first: usize,
)
    requires owned { length memory.now.owner ≡ length memory.now.cells }
    requires objects { All (λ object. IsTrue (S.has_object state.now object)) memory.now.owner }
    ensures { words.new ≡ map_from (filled_word S.Scheme state.now memory.now x) first words.old }
{
    for j in 0..words.as_slice().len() {
        let held = words.as_slice()[j];
        words.set(j, filled::<S>(state, memory, x, first, j, held));
    }
}

// The copy of word `first + j` past a boundary.
fn kept<S: Scheme>(
    state: &S::State,
    memory: &Words,
    written: &[u32],
    first: usize,
    j: usize,
    held: Option<Copied<S::Word>>,
) -> Option<Copied<S::Word>>
    requires owned { length memory.now.owner ≡ length memory.now.cells }
    requires objects { All (λ object. IsTrue (S.has_object state.now object)) memory.now.owner }
    requires known { All (λ object. IsTrue (S.has_object state.now object)) written.now }
    requires order { IsStrictlyIncreasing written.now }
    ensures { result ≡ kept_word S.Scheme state.now memory.now written.now (first + j) held }
{
    let y = place_in(memory.cells.as_slice(), first, j)?;
    let copied = held?;
    let stamp = S::keeps(state, written, memory.owner.as_slice()[y], copied.stamp)?;
    Some(Copied {
        value: copied.value,
        stamp,
    })
}

// Passes words, the first of which is word `first` of memory, through a boundary; how many become invalid, or the last
// value of u64.
fn keep<S: Scheme>(
    words: &mut List<Option<Copied<S::Word>>>,
    state: &S::State,
    memory: &Words,
    written: &[u32],
    first: usize,
) -> u64
    requires owned { length memory.now.owner ≡ length memory.now.cells }
    requires objects { All (λ object. IsTrue (S.has_object state.now object)) memory.now.owner }
    requires known { All (λ object. IsTrue (S.has_object state.now object)) written.now }
    requires order { IsStrictlyIncreasing written.now }
    ensures words { words.new ≡ map_from (kept_word S.Scheme state.now memory.now written.now) first words.old }
    ensures lost { result ≡ min (lost_words S.Scheme state.now memory.now written.now first words.old) (2 ^ 64 - 1) }
{
    let mut lost: u64 = 0;
    for j in 0..words.as_slice().len() {
        let held = words.as_slice()[j];
        let word = kept::<S>(state, memory, written, first, j, held);
        lost = lost.saturating_add(loss(held.is_some(), word.is_some()));
        words.set(j, word);
    }
    lost
}

/// Gives a line another number, and makes each of its words invalid.
pub(crate) fn reset_line<W: Copy>(line: &mut Line<W>, number: u32)
    ensures { line.new ≡ record { number = number; words = replicate (length line.old.words) None } }
{
    line.number = number;
    clear(&mut line.words);
}

/// Makes a word of a line valid, where the line has so many words.
pub(crate) fn put_word<W: Copy>(line: &mut Line<W>, offset: usize, copied: Copied<W>)
    ensures { line.new ≡ with_word offset copied line.old }
{
    if offset < line.words.as_slice().len() {
        line.words.set(offset, Some(copied));
    }
}

/// Fills a line after a miss of word `x`; lines have `words` words.
pub(crate) fn fill_line<S: Scheme>(
    line: &mut Line<S::Word>,
    state: &S::State,
    memory: &Words,
    words: u32,
    x: u32,
)
    requires owned { length memory.now.owner ≡ length memory.now.cells }
    requires objects { All (λ object. IsTrue (S.has_object state.now object)) memory.now.owner }
    ensures { line.new ≡ refilled S.Scheme state.now memory.now words x line.old }
{
    let first = first_word(line.number, words);
    fill::<S>(&mut line.words, state, memory, x as usize, first);
}

// Passes a line of `words` words through a boundary; how many words become invalid, or the last value of u64.
fn keep_line<S: Scheme>(
    line: &mut Line<S::Word>,
    state: &S::State,
    memory: &Words,
    words: u32,
    written: &[u32],
) -> u64
    requires owned { length memory.now.owner ≡ length memory.now.cells }
    requires objects { All (λ object. IsTrue (S.has_object state.now object)) memory.now.owner }
    requires known { All (λ object. IsTrue (S.has_object state.now object)) written.now }
    requires order { IsStrictlyIncreasing written.now }
    ensures line { line.new ≡ kept_line S.Scheme state.now memory.now words written.now line.old }
    ensures lost { result ≡ min (lost_in_line S.Scheme state.now memory.now words written.now line.old) (2 ^ 64 - 1) }
{
    let first = first_word(line.number, words);
    keep::<S>(&mut line.words, state, memory, written, first)
}

/// Passes the first `used` lines, of `words` words, through a boundary; how many words become invalid, or the last value of
/// u64.
pub(crate) fn keep_lines<S: Scheme>(
    lines: &mut [Line<S::Word>],
    used: usize,
    state: &S::State,
    memory: &Words,
    words: u32,
    written: &[u32],
) -> u64
    requires owned { length memory.now.owner ≡ length memory.now.cells }
    requires objects { All (λ object. IsTrue (S.has_object state.now object)) memory.now.owner }
    requires known { All (λ object. IsTrue (S.has_object state.now object)) written.now }
    requires order { IsStrictlyIncreasing written.now }
    requires used { used ≤ length lines.old }
    ensures lines { lines.new ≡ after_boundary S.Scheme state.now memory.now words written.now (take used lines.old) ++ drop used lines.old }
    ensures lost { result ≡ min (lost_count S.Scheme state.now memory.now words written.now (take used lines.old)) (2 ^ 64 - 1) }
{
    let mut lost: u64 = 0;
    for place in 0..used {
        let words_lost = keep_line::<S>(&mut lines[place], state, memory, words, written);
        lost = lost.saturating_add(words_lost);
    }
    lost
}
