//! A processor's cache.

ghost use Rattle.std.specs.Prelude.{◌≡◌, ℕ, ◌<◌, ◌/◌, ◌%◌, ◌-◌, ◌^◌, min, [], length, All, IsTrue, IfOk, is_some, slice_set, Some};
ghost use Rattle.std.specs.List.Sorted.{IsStrictlyIncreasing};
ghost use Rattle.cdc_sched.specs.Limits.{IsGeometry};
ghost use Rattle.cdc_cache.specs.Lines.{read_value, read_access, after_read, after_write, look_up, removed, after_boundary, lost_count};
ghost use Rattle.cdc_cache.specs.Sets.{AreSets};

use crate::read::{keep_sets, read_in};
use crate::set::Set;
use crate::{Access, Copied, Words};
use cdc_base::NoMemory;
use cdc_prog::Mark;
use cdc_sched::Geometry;
use cdc_scheme::Scheme;
use std::alloc::Global;

/// A cache under a scheme: sets of lines, none where the scheme has no caches.
///
/// Its clauses speak of one list of lines in order of filling (`IsCache`); the sets hold the lines of that list by their
/// numbers, each in the order of the list.
#[derive(Drop)]
pub struct Cache<S: Scheme> {
    geometry: Geometry,
    sets: Vec<Set<S::Word>>,
    ghost words: { 0 < geometry.words },
    ghost some: { 0 < geometry.sets },
}

// The sets of a cache with no lines.
fn empty_sets<W: Copy>(alloc: Global, geometry: Geometry) -> Result<Vec<Set<W>>, NoMemory>
    requires { 0 < geometry.ways }
    ensures { IfOk result (λ sets. (length sets.items ≡ geometry.sets) × AreSets geometry sets.items []) }
{
    let mut sets = Vec::with_capacity(alloc, geometry.sets as usize)?;
    for _set in 0..geometry.sets {
        sets.push(Set::new(alloc, geometry.words, geometry.ways)?)?;
    }
    Ok(sets)
}

impl<S: Scheme> Cache<S> {
    ghost use Rattle.cdc_cache.specs.Cache.{IsCache, ForLines, geometry_of};
    ghost use Rattle.cdc_cache.specs.Processors.{cache_holds};

    /// A cache of this shape with no lines, and the memory for all that it may hold.
    ///
    /// # Errors
    ///
    /// Memory ran out.
    pub fn new(alloc: Global, geometry: Geometry) -> Result<Cache<S>, NoMemory>
        requires { IsGeometry geometry }
        ensures geometry { IfOk result (λ cache. geometry_of cache ≡ geometry) }
        ensures empty { IfOk result (λ cache. IsCache S.Scheme cache []) }
    {
        if !S::caches() {
            return Ok(Cache {
                geometry,
                sets: Vec::new(alloc),
            });
        }
        let sets = empty_sets(alloc, geometry)?;
        Ok(Cache { geometry, sets })
    }

    // The set of a line.
    fn set_of(&self, line: u64) -> usize
        ensures { result ≡ line % self.now.geometry.sets }
    {
        (line % self.geometry.sets as u64) as usize
    }

    /// Reads a word of memory: its value, by a copy or memory's, and how it was read. Takes no memory.
    pub fn read(&mut self, state: &S::State, memory: &Words, word: u32, mark: Mark) -> (i64, Access)
        requires within { word < length memory.now.cells }
        requires owned { length memory.now.owner ≡ length memory.now.cells }
        requires objects { All (λ object. IsTrue (S.has_object state.now object)) memory.now.owner }
        ensures value { ForLines S.Scheme self.old (λ lines. result.0 ≡ read_value S.Scheme state.now memory.now (geometry_of self.old).words lines word mark) }
        ensures access { ForLines S.Scheme self.old (λ lines. result.1 ≡ read_access S.Scheme (geometry_of self.old) state.now memory.now lines word mark) }
        ensures geometry { geometry_of self.new ≡ geometry_of self.old }
        ensures lines { ForLines S.Scheme self.old (λ lines. IsCache S.Scheme self.new (after_read S.Scheme (geometry_of self.old) state.now memory.now lines word mark)) }
    {
        let words = self.geometry.words;
        let place = self.set_of((word / words) as u64);
        if place < self.sets.len() {
            read_in::<S>(&mut self.sets[place], state, memory, words, word, mark)
        } else {
            (
                memory.cells.as_slice()[word as usize],
                Access::Miss { evicted: false },
            )
        }
    }

    /// Gives a word of memory a new value, and makes the copy of it valid where its line is present. Takes no memory.
    pub fn write(&mut self, state: &S::State, memory: &mut Words, word: u32, value: i64)
        requires within { word < length memory.old.cells }
        requires owned { length memory.old.owner ≡ length memory.old.cells }
        requires objects { All (λ object. IsTrue (S.has_object state.now object)) memory.old.owner }
        ensures cells { memory.new.cells ≡ slice_set memory.old.cells word value }
        ensures owner { memory.new.owner ≡ memory.old.owner }
        ensures geometry { geometry_of self.new ≡ geometry_of self.old }
        ensures lines { ForLines S.Scheme self.old (λ lines. IsCache S.Scheme self.new (after_write S.Scheme (geometry_of self.old) state.now memory.old lines word value)) }
    {
        let words = self.geometry.words;
        let stamp = S::wrote(state, memory.owner.as_slice()[word as usize]);
        memory.cells.set(word as usize, value);
        let place = self.set_of((word / words) as u64);
        if place < self.sets.len() {
            self.sets[place].write(
                word / words,
                (word % words) as usize,
                Copied { value, stamp },
            );
        }
    }

    /// Drops a line; whether it was there. Takes no memory.
    pub fn evict(&mut self, line: u64) -> bool
        ensures was { ForLines S.Scheme self.old (λ lines. result ≡ is_some (look_up line lines)) }
        ensures held { result ≡ cache_holds S.Scheme (Some self.old) line }
        ensures geometry { geometry_of self.new ≡ geometry_of self.old }
        ensures lines { ForLines S.Scheme self.old (λ lines. IsCache S.Scheme self.new (removed line lines)) }
    {
        let place = self.set_of(line);
        place < self.sets.len() && self.sets[place].evict(line)
    }

    /// Passes each valid word through a boundary with this written list, by the scheme's state before it; how many become
    /// invalid, or the last value of u64. Takes no memory.
    pub fn boundary(&mut self, state: &S::State, memory: &Words, written: &[u32]) -> u64
        requires owned { length memory.now.owner ≡ length memory.now.cells }
        requires objects { All (λ object. IsTrue (S.has_object state.now object)) memory.now.owner }
        requires known { All (λ object. IsTrue (S.has_object state.now object)) written.now }
        requires order { IsStrictlyIncreasing written.now }
        ensures lost { ForLines S.Scheme self.old (λ lines. result ≡ min (lost_count S.Scheme state.now memory.now (geometry_of self.old).words written.now lines) (2 ^ 64 - 1)) }
        ensures geometry { geometry_of self.new ≡ geometry_of self.old }
        ensures lines { ForLines S.Scheme self.old (λ lines. IsCache S.Scheme self.new (after_boundary S.Scheme state.now memory.now (geometry_of self.old).words written.now lines)) }
    {
        keep_sets::<S>(&mut self.sets, state, memory, self.geometry.words, written)
    }
}
