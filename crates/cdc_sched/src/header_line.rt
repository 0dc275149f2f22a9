// The lines of a header, one by one, before their limits.
ghost use Rattle.std.specs.Prelude.{◌≡◌, ◌∷◌, [], true};
ghost use Rattle.cdc_sched.specs.Lines.{read_words};
ghost use Rattle.cdc_sched.specs.HeaderLines.{version_words, events_words, numbered, plain_scheme, wide_scheme, scheme_of, cache_of, plain_tail, tail_of};

use crate::header::{SchemeName, TailKind};
use crate::line::number;
use crate::phrase::{Phrase, is_word, read_words};

// A scheme with the bits of its numbers.
#[derive(Clone, Copy)]
pub(crate) struct SchemeWords {
    pub(crate) name: SchemeName,
    pub(crate) width: u64,
}

// The three numbers of a cache.
#[derive(Clone, Copy)]
pub(crate) struct CacheWords {
    pub(crate) words: u64,
    pub(crate) sets: u64,
    pub(crate) ways: u64,
}

pub(crate) fn is_version(line: &[u8]) -> bool
    ensures yes { result ≡ true → read_words line.now ≡ version_words }
    ensures no { read_words line.now ≡ version_words → result ≡ true }
{
    match read_words(line) {
        Phrase::Two(word, version) => is_word(word, b"cdc") && is_word(version, b"1"),
        _ => false,
    }
}

pub(crate) fn is_events(line: &[u8]) -> bool
    ensures yes { result ≡ true → read_words line.now ≡ events_words }
    ensures no { read_words line.now ≡ events_words → result ≡ true }
{
    match read_words(line) {
        Phrase::One(word) => is_word(word, b"events"),
        _ => false,
    }
}

// The number of a line that has this word and a number.
pub(crate) fn numbered(line: &[u8], word: &[u8]) -> Option<u64>
    ensures { result ≡ numbered word.now (read_words line.now) }
{
    match read_words(line) {
        Phrase::Two(first, digits) if is_word(first, word) => number(digits),
        _ => None,
    }
}

pub(crate) fn scheme_words(line: &[u8]) -> Option<SchemeWords>
    ensures { result ≡ scheme_of (read_words line.now) }
{
    match read_words(line) {
        Phrase::Two(word, name) if is_word(word, b"scheme") => plain_scheme(name),
        Phrase::Three(word, name, width) if is_word(word, b"scheme") => {
            wide_scheme(name, number(width)?)
        }
        _ => None,
    }
}

fn plain_scheme(name: &[u8]) -> Option<SchemeWords>
    ensures { result ≡ plain_scheme name.now }
{
    let name = if is_word(name, b"direct") {
        SchemeName::Direct
    } else if is_word(name, b"si") {
        SchemeName::Si
    } else {
        return None;
    };
    Some(SchemeWords { name, width: 0 })
}

fn wide_scheme(name: &[u8], width: u64) -> Option<SchemeWords>
    ensures { result ≡ wide_scheme name.now width }
{
    let name = if is_word(name, b"vc") {
        SchemeName::Vc
    } else if is_word(name, b"tpi") {
        SchemeName::Tpi
    } else {
        return None;
    };
    Some(SchemeWords { name, width })
}

pub(crate) fn cache_words(line: &[u8]) -> Option<CacheWords>
    ensures { result ≡ cache_of (read_words line.now) }
{
    match read_words(line) {
        Phrase::Four(word, words, sets, ways) if is_word(word, b"cache") => Some(CacheWords {
            words: number(words)?,
            sets: number(sets)?,
            ways: number(ways)?,
        }),
        _ => None,
    }
}

pub(crate) fn tail_words(line: &[u8]) -> Option<TailKind>
    ensures { result ≡ tail_of (read_words line.now) }
{
    match read_words(line) {
        Phrase::Two(word, name) if is_word(word, b"tail") => plain_tail(name),
        Phrase::Three(word, name, seed) if is_word(word, b"tail") && is_word(name, b"random") => {
            Some(TailKind::Random(number(seed)?))
        }
        _ => None,
    }
}

fn plain_tail(name: &[u8]) -> Option<TailKind>
    ensures { result ≡ plain_tail name.now }
{
    if is_word(name, b"none") {
        Some(TailKind::None)
    } else if is_word(name, b"rr") {
        Some(TailKind::RoundRobin)
    } else {
        None
    }
}
