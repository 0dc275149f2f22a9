//! A memory without caches.

ghost use Rattle.std.specs.Prelude.{◌≡◌, ℕ, ◌<◌, [], List as Items, IfOk, true, false, None, length};

use crate::{Access, Counts, Fabric};
use cdc_base::{List, NoMemory};
use cdc_prog::Mark;
use std::alloc::Global;

/// Words that all processors load and store in memory itself: every read is a miss. Lines are of one word.
#[derive(Drop)]
pub struct Uncached {
    cells: List<i64>,
    counts: List<Counts>,
}

impl Uncached {
    ghost use Rattle.cdc_fabric.specs.Counting.{no_counts};
    ghost use Rattle.cdc_fabric.specs.UncachedSteps.{uncached_procs, uncached_words, uncached_counts, uncached_stands};

    /// So many words of 0, for so many processors.
    ///
    /// # Errors
    ///
    /// Memory ran out.
    pub fn new(alloc: Global, words: u32, procs: u32) -> Result<Uncached, NoMemory>
        ensures stands { IfOk result (λ memory. uncached_stands memory []) }
        ensures procs { IfOk result (λ memory. uncached_procs memory ≡ procs) }
        ensures words { IfOk result (λ memory. uncached_words memory ≡ words) }
        ensures counts { IfOk result (λ memory. (p : ℕ) → p < procs → uncached_counts memory p ≡ no_counts) }
    {
        let cells = vec![in alloc; 0; words as usize]?;
        let counts = vec![in alloc; Counts::zero(); procs as usize]?;
        Ok(Uncached {
            cells: List::of(cells),
            counts: List::of(counts),
        })
    }
}

impl Fabric for Uncached {
    ghost use Rattle.cdc_fabric.specs.UncachedSteps.{uncached_procs, uncached_words, uncached_counts, uncached_stands, uncached_loads, uncached_stores, IsSameMemory};
    ghost use Rattle.cdc_fabric.specs.UncachedLaws.{uncached_load_right, uncached_load_carries, uncached_store_carries, uncached_same_carries};
    ghost use Rattle.cdc_fabric.specs.Uncached.{line_count};

    ghost procs = { uncached_procs };

    ghost words = { uncached_words };

    ghost made = { λ _. None };

    ghost plain = { λ _. true };

    ghost lines = { λ memory. line_count (uncached_words memory) };

    ghost present = { λ _ p line. false };

    ghost counts = { uncached_counts };

    ghost stands = { uncached_stands };

    ghost loads = { uncached_loads };

    ghost stores = { uncached_stores };

    ghost evicts = { λ old p line new. IsSameMemory old new };

    ghost bounds = { λ old written new. IsSameMemory old new };

    ghost load_right = { λ old new p word mark value calls proc within order step stands. uncached_load_right old new p word mark value calls within step stands };

    ghost load_carries = { λ old new p word mark value calls proc within order step stands. uncached_load_carries old new p word mark value calls step stands };

    ghost store_carries = { λ old new p word value calls proc within order step stands. uncached_store_carries old new p word value calls step stands };

    ghost evict_carries = { λ old new p line calls proc order step stands. uncached_same_carries old new calls step stands };

    ghost boundary_carries = { λ old new written calls list order step stands. uncached_same_carries old new calls step stands };

    fn load(&mut self, p: u32, word: u32, _mark: Mark) -> i64 {
        let mut counts = self.counts.as_slice()[p as usize];
        counts.read(Access::Miss { evicted: false });
        self.counts.set(p as usize, counts);
        self.cells.as_slice()[word as usize]
    }

    fn store(&mut self, _p: u32, word: u32, value: i64) {
        self.cells.set(word as usize, value);
    }

    fn evict(&mut self, _p: u32, _line: u64) -> bool {
        false
    }

    fn boundary(&mut self, _written: &[u32]) {}

    fn counts(&self, p: u32) -> Counts {
        self.counts.as_slice()[p as usize].without_steps()
    }

    fn lines(&self) -> u64 {
        (self.cells.as_slice().len() as u64).max(1)
    }
}
