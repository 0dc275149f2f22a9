// The words of a line, as far as a line of a schedule has any.
ghost use Rattle.std.specs.Prelude.{◌≡◌, ◌==◌, ◌<◌, ◌∷◌, [], false, length, position, slice_index, not, MatchOption};
ghost use Rattle.std.specs.Str.{bytes_eq};
ghost use Rattle.cdc_sched.specs.Lines.{is_blank, words, is_comment, is_skipped, read_words};
ghost use Rattle.cdc_sched.specs.Phrases.{HasWords};

use crate::line::{is_blank, is_plain};

// The words of a line. No line of a schedule has more than four.
#[derive(Clone, Copy)]
pub(crate) enum Phrase<'a> {
    Empty,
    One(&'a [u8]),
    Two(&'a [u8], &'a [u8]),
    Three(&'a [u8], &'a [u8], &'a [u8]),
    Four(&'a [u8], &'a [u8], &'a [u8], &'a [u8]),
    Long,
}

// The words of a line that is plain; another has none that could fit a place.
pub(crate) fn read_words(line: &[u8]) -> Phrase<'_>
    ensures { HasWords (read_words line.now) result }
{
    if is_plain(line) {
        split_words(line)
    } else {
        Phrase::Empty
    }
}

fn split_words(line: &[u8]) -> Phrase<'_>
    ensures { HasWords (words line.now) result }
{
    let Some((first, rest)) = first_word(line) else {
        return Phrase::Empty;
    };
    let Some((second, rest)) = first_word(rest) else {
        return Phrase::One(first);
    };
    let Some((third, rest)) = first_word(rest) else {
        return Phrase::Two(first, second);
    };
    let Some((fourth, rest)) = first_word(rest) else {
        return Phrase::Three(first, second, third);
    };
    match first_word(rest) {
        None => Phrase::Four(first, second, third, fourth),
        Some(_) => Phrase::Long,
    }
}

// Whether the line says nothing.
pub(crate) fn is_skipped(line: &[u8]) -> bool
    ensures { result ≡ is_skipped line.now }
{
    is_plain(line) && is_comment(line)
}

// Whether the line has no words, or a first one that begins with `#`.
fn is_comment(line: &[u8]) -> bool
    ensures { result ≡ is_comment (words line.now) }
{
    match first_word(line) {
        Some((word, _)) => begins_comment(word),
        None => true,
    }
}

fn begins_comment(word: &[u8]) -> bool
    ensures { result ≡ (slice_index word.now 0 == 35) }
{
    match word {
        [first, ..] => *first == b'#',
        [] => false,
    }
}

// The first word, and what stands behind it.
fn first_word(line: &[u8]) -> Option<(&[u8], &[u8])>
    ensures { MatchOption result (words line.now ≡ []) (λ r. words line.now ≡ r.0.now ∷ words r.1.now) }
{
    match word_start(line) {
        Some(start) => Some(cut_word(&line[start..])),
        None => None,
    }
}

// The place of the first byte that is no blank.
fn word_start(line: &[u8]) -> Option<usize>
    ensures { result ≡ position (λ b. not (is_blank b)) line.now }
{
    line.iter().position(|byte| !is_blank(*byte))
}

// The place of the first blank.
fn word_end(line: &[u8]) -> Option<usize>
    ensures { result ≡ position is_blank line.now }
{
    line.iter().position(|byte| is_blank(*byte))
}

// The word at the front of a line that begins with one, and what stands behind it.
fn cut_word(line: &[u8]) -> (&[u8], &[u8])
    requires some { 0 < length line.now }
    requires begins { is_blank (slice_index line.now 0) ≡ false }
    ensures { words line.now ≡ result.0.now ∷ words result.1.now }
{
    match word_end(line) {
        Some(end) => (&line[..end], &line[end + 1..]),
        None => (line, &line[line.len()..]),
    }
}

// Whether the word is this one.
pub(crate) fn is_word(word: &[u8], text: &[u8]) -> bool
    ensures { result ≡ bytes_eq word.now text.now }
{
    word == text
}
