//! A memory side that keeps the calls that are made on it.

ghost use Rattle.std.specs.Prelude.{◌≡◌, ◌<◌, [], length, IfOk};

use arrayvec::ArrayVec;
use cdc_base::{List, NoMemory};
use cdc_fabric::{Counts, Fabric};
use cdc_prog::Mark;
use std::alloc::Global;

/// A call that was made on a memory side.
#[derive(Clone, Copy, Debug, PartialEq, Eq)]
pub(crate) enum Call {
    /// A load: the processor, the word, and the value that it gave.
    Load(u32, u32, i64),
    /// A store: the processor, the word, and the value.
    Store(u32, u32, i64),
    /// An eviction: the processor, and the line.
    Evict(u32, u64),
    /// A boundary: the number of objects that the closed epoch may have written.
    Boundary(usize),
}

// What the room of a log has where no call is kept.
impl Default for Call {
    fn default() -> Call {
        Call::Boundary(0)
    }
}

/// The calls that were made, the first one first.
pub(crate) type Log = ArrayVec<Call, 64>;

/// Words in memory itself, in lines of two. Each line counts as there in each cache, also behind an eviction, and no access is
/// counted. It keeps the calls that are made on it; where there is room for no more, the first ones.
#[derive(Drop)]
pub(crate) struct Watched<'a> {
    cells: List<i64>,
    procs: u32,
    log: &'a mut Log,
}

impl<'a> Watched<'a> {
    ghost use Rattle.cdc_fabric.specs.Uncached.{HoldsStores};

    /// So many words of 0, for so many processors.
    pub(crate) fn new(
        alloc: Global,
        words: u32,
        procs: u32,
        log: &'a mut Log,
    ) -> Result<Watched<'a>, NoMemory>
        ensures stands { IfOk result (λ memory. HoldsStores memory.cells []) }
        ensures words { IfOk result (λ memory. length memory.cells ≡ words) }
        ensures procs { IfOk result (λ memory. memory.procs ≡ procs) }
    {
        let cells = vec![in alloc; 0; words as usize]?;
        Ok(Watched {
            cells: List::of(cells),
            procs,
            log,
        })
    }

    // Keeps a call.
    fn keep(&mut self, call: Call)
        ensures cells { self.new.cells ≡ self.old.cells }
        ensures procs { self.new.procs ≡ self.old.procs }
    {
        if !self.log.is_full() {
            self.log.push(call);
        }
    }
}

impl<'a> Fabric for Watched<'a> {
    ghost use Rattle.std.specs.Prelude.{◌≡◌, ◌+◌, ◌/◌, ◌∷◌, length, max, nat_lt, None, true};
    ghost use Rattle.std.specs.List.{slice_set};
    ghost use Rattle.std.proofs.Common.{sym, subst, ◌∙◌};
    ghost use Rattle.cdc_fabric.specs.Calls.{Store as StoreOf};
    ghost use Rattle.cdc_fabric.specs.Counting.{no_counts};
    ghost use Rattle.cdc_fabric.specs.Uncached.{HoldsStores, value_at};
    ghost use Rattle.cdc_fabric.specs.UncachedLaws.{stored};

    ghost procs = { λ memory. memory.procs };

    ghost words = { λ memory. length memory.cells };

    ghost made = { λ _. None };

    ghost plain = { λ _. true };

    ghost lines = { λ memory. max ((length memory.cells + 1) / 2) 1 };

    ghost present = { λ memory p line. nat_lt line (max ((length memory.cells + 1) / 2) 1) };

    ghost counts = { λ memory p. no_counts };

    ghost stands = { λ memory calls. HoldsStores memory.cells calls };

    ghost loads = { λ old p word mark value new. (value ≡ value_at old.cells word) × (new.cells ≡ old.cells) };

    ghost stores = { λ old p word value new. new.cells ≡ slice_set old.cells word value };

    ghost evicts = { λ old p line new. new.cells ≡ old.cells };

    ghost bounds = { λ old written new. new.cells ≡ old.cells };

    ghost load_right = { λ old new p word mark value calls proc within order step stands. step.0 ∙ stands word within };

    ghost load_carries = { λ old new p word mark value calls proc within order step stands. subst (λ cells. HoldsStores cells calls) (sym step.1) stands };

    ghost store_carries = { λ old new p word value calls proc within order step stands.
        subst (λ cells. HoldsStores cells (StoreOf p word value ∷ calls)) (sym step) (stored old.cells calls p word value stands) };

    ghost evict_carries = { λ old new p line calls proc order step stands. subst (λ cells. HoldsStores cells calls) (sym step) stands };

    ghost boundary_carries = { λ old new written calls list order step stands. subst (λ cells. HoldsStores cells calls) (sym step) stands };

    fn load(&mut self, p: u32, word: u32, _mark: Mark) -> i64 {
        let value = self.cells.as_slice()[word as usize];
        self.keep(Call::Load(p, word, value));
        value
    }

    fn store(&mut self, p: u32, word: u32, value: i64) {
        self.cells.set(word as usize, value);
        self.keep(Call::Store(p, word, value));
    }

    fn evict(&mut self, p: u32, line: u64) -> bool {
        self.keep(Call::Evict(p, line));
        line < self.lines()
    }

    fn boundary(&mut self, written: &[u32]) {
        self.keep(Call::Boundary(written.len()));
    }

    fn counts(&self, _p: u32) -> Counts {
        Counts::zero()
    }

    fn lines(&self) -> u64 {
        (self.cells.as_slice().len() as u64).div_ceil(2).max(1)
    }
}
