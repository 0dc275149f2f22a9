//! Memory, and lines of cached words.

use cdc_base::List;

/// Memory: its words and, for each, the object that it belongs to.
#[derive(Debug, Drop)]
pub struct Words {
    pub cells: List<i64>,
    /// One object for each word, by its number from 0.
    pub owner: List<u32>,
}

/// A valid cached word: the copy of a word of memory, and what the scheme keeps with it.
#[derive(Clone, Copy, Debug)]
pub struct Copied<W> {
    pub value: i64,
    pub stamp: W,
}

/// A line of a cache.
#[derive(Drop)]
pub struct Line<W> {
    /// The number of its first word divided by the number of words of a line.
    pub number: u32,
    /// Its words in order; None where a word is not valid.
    pub words: List<Option<Copied<W>>>,
}
