//! One set of a cache: its lines in order of filling, in places that are taken from the start.

ghost use Rattle.std.specs.Prelude.{◌≡◌, ◌≢◌, ◌<◌, ◌≤◌, ◌-◌, ◌+◌, ◌/◌, ◌∷◌, ◌++◌, ℕ, [], length, IfOk, IfSome, Some, All, option_and_then, position, is_some, is_none, ◌&&◌, nat_lt, not, take, drop, remove, slice_get, ◌==◌, vec_len, slice_set};
ghost use Rattle.std.specs.List.{slice_index_or};
ghost use Rattle.cdc_cache.specs.Lines.{look_up, copy_at, removed, written, no_words};

use crate::fill::{put_word, reset_line};
use crate::{Copied, Line};
use cdc_base::{List, NoMemory};
use std::alloc::Global;

/// Places for lines, of which the first `used` hold lines, the oldest first.
#[derive(Drop)]
pub struct Set<W> {
    pub(crate) lines: Vec<Line<W>>,
    pub(crate) used: usize,
    ghost within: { used ≤ vec_len lines },
    ghost some: { 0 < vec_len lines },
}

// So many words that are not valid.
fn blank<W: Copy>(alloc: Global, words: u32) -> Result<List<Option<Copied<W>>>, NoMemory>
    ensures { IfOk result (λ list. length list ≡ words) }
{
    let mut blank = Vec::with_capacity(alloc, words as usize)?;
    for _word in 0..words {
        blank.push(None)?;
    }
    Ok(List::of(blank))
}

// Moves the line in a place to the end.
fn to_end<W: Copy>(lines: &mut [Line<W>], place: usize)
    requires { place < length lines.old }
    ensures { lines.new ≡ remove lines.old place ++ take 1 (drop place lines.old) }
{
    lines[place..].rotate_left(1);
}

impl<W: Copy> Set<W> {
    ghost use Rattle.cdc_cache.specs.Sets.{set_lines, set_room, IsSized};

    /// A set with no lines, and places for `ways` lines of `words` words.
    pub(crate) fn new(alloc: Global, words: u32, ways: u32) -> Result<Set<W>, NoMemory>
        requires { 0 < ways }
        ensures empty { IfOk result (λ set. set_lines set ≡ []) }
        ensures sized { IfOk result (λ set. IsSized words ways set) }
    {
        let mut lines = Vec::with_capacity(alloc, ways as usize)?;
        for _way in 0..ways {
            let words = blank(alloc, words)?;
            lines.push(Line { number: 0, words })?;
        }
        Ok(Set { lines, used: 0 })
    }

    /// The place of the line with a number.
    pub(crate) fn place_of(&self, number: u64) -> Option<usize>
        ensures { result ≡ position (λ l. l.number == number) (set_lines self.now) }
    {
        self.lines[..self.used]
            .iter()
            .position(|line| line.number as u64 == number)
    }

    /// Whether a line must go before one that was not found comes in.
    pub(crate) fn lacks_room(&self, found: Option<usize>) -> bool
        ensures { result ≡ (is_none found && not (nat_lt (length (set_lines self.now)) (length self.now.lines.items))) }
    {
        found.is_none() && self.used == self.lines.len()
    }

    /// The copy that word `offset` of the line in a place is.
    pub(crate) fn word_at(&self, place: usize, offset: usize) -> Option<Copied<W>>
        requires { place < length (set_lines self.now) }
        ensures { result ≡ copy_at offset (slice_get (set_lines self.now) place) }
    {
        *self.lines[place].words.as_slice().get(offset)?
    }

    /// The copy that word `offset` of the line in the place is, where there is such a line.
    pub(crate) fn copy_of(&self, found: Option<usize>, offset: usize) -> Option<Copied<W>>
        requires { IfSome found (λ place. place < length (set_lines self.now)) }
        ensures { result ≡ option_and_then (λ place. copy_at offset (slice_get (set_lines self.now) place)) found }
    {
        self.word_at(found?, offset)
    }

    // Takes one more place, for line `number`, which has no valid word yet.
    fn add(&mut self, number: u32) -> usize
        requires { self.old.used < length self.old.lines.items }
        ensures last { result + 1 ≡ length (set_lines self.new) }
        ensures lines { (words ways : ℕ) → IsSized words ways self.old →
            (set_lines self.new ≡ set_lines self.old ++ no_words words number ∷ []) × IsSized words ways self.new }
    {
        let place = self.used;
        reset_line(&mut self.lines[place], number);
        self.used += 1;
        place
    }

    // Drops the first line of a full set, for line `number`, which has no valid word yet.
    fn replace_first(&mut self, number: u32) -> usize
        requires { self.old.used ≡ length self.old.lines.items }
        ensures last { result + 1 ≡ length (set_lines self.new) }
        ensures lines { (words ways : ℕ) → IsSized words ways self.old →
            (set_lines self.new ≡ drop 1 (set_lines self.old) ++ no_words words number ∷ []) × IsSized words ways self.new }
    {
        to_end(&mut self.lines, 0);
        let place = self.used - 1;
        reset_line(&mut self.lines[place], number);
        place
    }

    /// A place at the end for line `number`, which has no valid word yet; a full set drops its first line.
    pub(crate) fn make_room(&mut self, number: u32) -> usize
        ensures last { result + 1 ≡ length (set_lines self.new) }
        ensures lines { (words ways : ℕ) → IsSized words ways self.old →
            (set_lines self.new ≡ set_room ways (set_lines self.old) ++ no_words words number ∷ []) × IsSized words ways self.new }
    {
        if self.used == self.lines.len() {
            self.replace_first(number)
        } else {
            self.add(number)
        }
    }

    /// Makes word `offset` of line `number` valid, where the line is present.
    pub(crate) fn write(&mut self, number: u32, offset: usize, copied: Copied<W>)
        ensures lines { set_lines self.new ≡ written number offset copied (set_lines self.old) }
        ensures sized { (words ways : ℕ) → IsSized words ways self.old → IsSized words ways self.new }
    {
        if let Some(place) = self.place_of(number as u64) {
            put_word(&mut self.lines[place], offset, copied);
        }
    }

    /// Drops a line; whether it was there.
    pub(crate) fn evict(&mut self, number: u64) -> bool
        ensures was { result ≡ is_some (look_up number (set_lines self.old)) }
        ensures lines { set_lines self.new ≡ removed number (set_lines self.old) }
        ensures sized { (words ways : ℕ) → IsSized words ways self.old → IsSized words ways self.new }
    {
        match self.place_of(number) {
            Some(place) => {
                to_end(&mut self.lines, place);
                self.used -= 1;
                true
            }
            None => false,
        }
    }
}
