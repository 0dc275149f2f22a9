//! The lists of calls.

ghost use Rattle.std.specs.Prelude.{◌<◌, ◌≤◌};

/// The words of a line of the cache.
pub const LINE: u32 = 4;

/// The lines of memory: many more than the cache has room for.
pub const LINES: u32 = 1024;

/// A list of calls, and the memory side on which they are made.
#[derive(Clone, Copy, Debug, PartialEq, Eq)]
pub enum Kind {
    /// Through a cache, the words of one line again and again: all loads but the first hit.
    Hits,
    /// Through a cache, a word of each line of memory in turn: no load hits.
    Misses,
    /// The calls of `Hits` without a cache.
    Plain,
}

impl Kind {
    /// The kind of this name.
    pub fn named(name: &str) -> Option<Kind> {
        match name {
            "hits" => Some(Kind::Hits),
            "misses" => Some(Kind::Misses),
            "plain" => Some(Kind::Plain),
            _ => None,
        }
    }

    /// The word that call `turn`, counted from 0, loads or stores.
    pub fn word(self, turn: u32) -> u32
        ensures { result < 4096 }
    {
        match self {
            Kind::Hits | Kind::Plain => turn % LINE,
            Kind::Misses => turn % LINES * LINE,
        }
    }
}
