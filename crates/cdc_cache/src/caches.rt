//! The memory side that the processors' caches make with memory.

ghost use Rattle.std.specs.Prelude.{◌≡◌, ℕ, ◌<◌, ◌≤◌, [], List as Items, ◌++◌, length, replicate, vec_len, All, IfOk, OnOk, IsTrue};
ghost use Rattle.std.specs.List.Sorted.{IsStrictlyIncreasing};
ghost use Rattle.cdc_sched.specs.Limits.{IsGeometry, IsHeader};
ghost use Rattle.cdc_sched.specs.declared.header.Geometry.{Geometry as Shape};
ghost use Rattle.cdc_fabric.specs.Counting.{no_counts, after_boundary as counts_after_boundary};
ghost use Rattle.cdc_fabric.specs.Made.{IsMadeFor, owners_from};
ghost use Rattle.cdc_cache.specs.Lines.{after_boundary, lost_count};
ghost use Rattle.cdc_cache.specs.Processors.{AreCaches, LieFrom, counts_at};
ghost use Rattle.cdc_cache.specs.declared.line.Line.{Line as LineOf};

use crate::{Cache, Counts, Fabric, Words};
use cdc_base::{List, NoMemory};
use cdc_prog::{Mark, Object};
use cdc_sched::{Geometry, Header};
use cdc_scheme::Scheme;
use std::alloc::Global;

/// One cache for each processor, under a scheme, with memory, the scheme's state and the processors' counts.
///
/// The clauses of its calls speak of a list of lines for each processor (`HasLines`).
#[derive(Drop)]
pub struct Caches<S: Scheme> {
    geometry: Geometry,
    memory: Words,
    caches: Vec<Cache<S>>,
    state: S::State,
    counts: List<Counts>,
    objects: u32,
    ghost words: { 0 < geometry.words },
    ghost counted: { length counts ≡ vec_len caches },
    ghost owned: { length memory.owner ≡ length memory.cells },
    ghost listed: { (object : ℕ) → object < objects → IsTrue (S.has_object state object) },
    ghost owners: { All (λ object. IsTrue (S.has_object state object)) memory.owner },
}

// The object of each word.
fn owners_of(alloc: Global, objects: &[Object]) -> Result<Vec<u32>, NoMemory>
    requires { length objects.now ≤ 1024 }
    ensures { IfOk result (λ owners. owners.items ≡ owners_from 0 objects.now) }
{
    let mut owners = Vec::new(alloc);
    for number in 0..objects.len() {
        add_owner(&mut owners, number as u32, objects[number].words)?;
    }
    Ok(owners)
}

// The next object's words.
fn add_owner(owners: &mut Vec<u32>, number: u32, words: u32) -> Result<(), NoMemory>
    ensures { OnOk result (owners.new.items ≡ owners.old.items ++ replicate words number) }
{
    for _word in 0..words {
        owners.push(number)?;
    }
    Ok(())
}

// So many caches with no lines.
fn empty_caches<S: Scheme>(
    alloc: Global,
    geometry: Geometry,
    procs: u32,
) -> Result<Vec<Cache<S>>, NoMemory>
    requires { IsGeometry geometry }
    ensures { IfOk result (λ caches. (length caches.items ≡ procs) × AreCaches S.Scheme geometry caches.items (λ p. [])) }
{
    let mut caches = Vec::with_capacity(alloc, procs as usize)?;
    for _proc in 0..procs {
        caches.push(Cache::new(alloc, geometry)?)?;
    }
    Ok(caches)
}

// Passes each processor's cache through a boundary, and counts the words that become invalid.
fn keep_caches<S: Scheme>(
    caches: &mut [Cache<S>],
    counts: &mut List<Counts>,
    state: &S::State,
    memory: &Words,
    written: &[u32],
)
    requires counted { length counts.old ≡ length caches.old }
    requires owned { length memory.now.owner ≡ length memory.now.cells }
    requires objects { All (λ object. IsTrue (S.has_object state.now object)) memory.now.owner }
    requires known { All (λ object. IsTrue (S.has_object state.now object)) written.now }
    requires order { IsStrictlyIncreasing written.now }
    ensures many { length counts.new ≡ length counts.old }
    ensures lines { (geometry : Shape) (lists : ℕ → Items (LineOf S.Word)) → AreCaches S.Scheme geometry caches.old lists →
        AreCaches S.Scheme geometry caches.new (λ p. after_boundary S.Scheme state.now memory.now geometry.words written.now (lists p)) }
    ensures counts { (geometry : Shape) (lists : ℕ → Items (LineOf S.Word)) → AreCaches S.Scheme geometry caches.old lists → (p : ℕ) → p < length caches.old →
        counts_at counts.new p ≡ counts_after_boundary (lost_count S.Scheme state.now memory.now geometry.words written.now (lists p)) (counts_at counts.old p) }
{
    for p in 0..caches.len() {
        let words = caches[p].boundary(state, memory, written);
        let mut count = counts.as_slice()[p];
        count.invalidate(words);
        counts.set(p, count);
    }
}

impl<S: Scheme> Caches<S> {
    ghost use Rattle.cdc_cache.specs.Sides.{side_procs, side_words, side_made, side_counts, side_stands, HasLines};

    /// Memory of zeros for these objects, which have `words` words, with the caches that the header names, all empty, and the
    /// scheme at its start.
    ///
    /// # Errors
    ///
    /// Memory ran out.
    pub fn new(
        alloc: Global,
        header: &Header,
        objects: &List<Object>,
        words: u32,
    ) -> Result<Caches<S>, NoMemory>
        requires header { IsHeader header.now }
        requires width { S.fits_width header.now.width }
        requires most { length objects.now ≤ 1024 }
        requires words { LieFrom 0 objects.now words }
        ensures stands { IfOk result (λ side. side_stands S.Scheme side []) }
        ensures lines { IfOk result (λ side. HasLines S.Scheme side (λ p. [])) }
        ensures start { IfOk result (λ side. S.starts header.now.width (length objects.now) side.state) }
        ensures procs { IfOk result (λ side. side_procs S.Scheme side ≡ header.now.procs) }
        ensures words { IfOk result (λ side. side_words S.Scheme side ≡ words) }
        ensures geometry { IfOk result (λ side. side.geometry ≡ header.now.geometry) }
        ensures made { IfOk result (λ side. IsMadeFor (side_made S.Scheme side) objects.now) }
        ensures counts { IfOk result (λ side. (p : ℕ) → p < header.now.procs → side_counts S.Scheme side p ≡ no_counts) }
    {
        let owner = owners_of(alloc, objects.as_slice())?;
        let cells = vec![in alloc; 0; words as usize]?;
        let caches = empty_caches::<S>(alloc, header.geometry, header.procs)?;
        let counts = vec![in alloc; Counts::zero(); header.procs as usize]?;
        let number = objects.as_slice().len() as u32;
        let state = S::start(alloc, header.width, number)?;
        Ok(Caches {
            geometry: header.geometry,
            memory: Words {
                cells: List::of(cells),
                owner: List::of(owner),
            },
            caches,
            state,
            counts: List::of(counts),
            objects: number,
        })
    }
}

impl<S: Scheme> Fabric for Caches<S> {
    ghost use Rattle.cdc_cache.specs.Sides.{side_procs, side_words, side_made, side_plain, side_lines, side_present, side_counts, side_stands, Loads, Stores, Evicts, Bounds};
    ghost use Rattle.cdc_cache.specs.SidesLaws.{side_load_right, side_load_carries, side_store_carries, side_evict_carries, side_boundary_carries};

    ghost procs = { λ side. side_procs S.Scheme side };

    ghost words = { λ side. side_words S.Scheme side };

    ghost made = { λ side. side_made S.Scheme side };

    ghost plain = { λ side. side_plain S.Scheme side };

    ghost lines = { λ side. side_lines S.Scheme side };

    ghost present = { λ side p line. side_present S.Scheme side p line };

    ghost counts = { λ side p. side_counts S.Scheme side p };

    ghost stands = { λ side calls. side_stands S.Scheme side calls };

    ghost loads = { λ old p word mark value new. Loads S.Scheme old p word mark value new };

    ghost stores = { λ old p word value new. Stores S.Scheme old p word value new };

    ghost evicts = { λ old p line new. Evicts S.Scheme old p line new };

    ghost bounds = { λ old written new. Bounds S.Scheme old written new };

    ghost load_right = { λ old new p word mark value calls proc within order step stands.
        side_load_right S.Scheme.own
        (record {
          knows_write = S.knows_write;
          knows_boundary = S.knows_boundary;
          dates_write = S.dates_write;
          dates_target = S.dates_target;
          dates_neighbour = S.dates_neighbour;
          dates_wrote = S.dates_wrote;
          first = S.first;
          second = S.second;
        })
        old new p word mark value calls proc order step stands };

    ghost load_carries = { λ old new p word mark value calls proc within order step stands.
        side_load_carries S.Scheme.own
        (record {
          knows_write = S.knows_write;
          knows_boundary = S.knows_boundary;
          dates_write = S.dates_write;
          dates_target = S.dates_target;
          dates_neighbour = S.dates_neighbour;
          dates_wrote = S.dates_wrote;
          first = S.first;
          second = S.second;
        })
        old new p word mark value calls proc order step stands };

    ghost store_carries = { λ old new p word value calls proc within order step stands.
        side_store_carries S.Scheme.own
        (record {
          knows_write = S.knows_write;
          knows_boundary = S.knows_boundary;
          dates_write = S.dates_write;
          dates_target = S.dates_target;
          dates_neighbour = S.dates_neighbour;
          dates_wrote = S.dates_wrote;
          first = S.first;
          second = S.second;
        })
        old new p word value calls proc within order step stands };

    ghost evict_carries = { λ old new p line calls proc order step stands.
        side_evict_carries S.Scheme.own
        (record {
          knows_write = S.knows_write;
          knows_boundary = S.knows_boundary;
          dates_write = S.dates_write;
          dates_target = S.dates_target;
          dates_neighbour = S.dates_neighbour;
          dates_wrote = S.dates_wrote;
          first = S.first;
          second = S.second;
        })
        old new p line calls proc step stands };

    ghost boundary_carries = { λ old new written calls list order step stands.
        side_boundary_carries S.Scheme.own
        (record {
          knows_write = S.knows_write;
          knows_boundary = S.knows_boundary;
          dates_write = S.dates_write;
          dates_target = S.dates_target;
          dates_neighbour = S.dates_neighbour;
          dates_wrote = S.dates_wrote;
          first = S.first;
          second = S.second;
        })
        old new written calls order step stands };

    fn load(&mut self, p: u32, word: u32, mark: Mark) -> i64 {
        let (value, access) = self.caches[p as usize].read(&self.state, &self.memory, word, mark);
        let mut counts = self.counts.as_slice()[p as usize];
        counts.read(access);
        self.counts.set(p as usize, counts);
        value
    }

    fn store(&mut self, p: u32, word: u32, value: i64) {
        self.caches[p as usize].write(&self.state, &mut self.memory, word, value);
    }

    fn evict(&mut self, p: u32, line: u64) -> bool {
        let was = self.caches[p as usize].evict(line);
        let mut counts = self.counts.as_slice()[p as usize];
        if was {
            counts.drop_line();
        }
        self.counts.set(p as usize, counts);
        was
    }

    fn boundary(&mut self, written: &[u32]) {
        keep_caches::<S>(
            &mut self.caches,
            &mut self.counts,
            &self.state,
            &self.memory,
            written,
        );
        S::boundary(&mut self.state, written);
    }

    fn counts(&self, p: u32) -> Counts {
        self.counts.as_slice()[p as usize].without_steps()
    }

    fn lines(&self) -> u64 {
        let words = self.geometry.words as u64;
        ((self.memory.cells.as_slice().len() as u64 + (words - 1)) / words).max(1)
    }
}
