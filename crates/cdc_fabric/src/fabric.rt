//! The memory side of the machine, told by the calls that were made on it.

ghost use Rattle.std.specs.Prelude.{◌≡◌, ℕ, ℤ, Bool, ◌<◌, ◌≤◌, List, ◌∷◌, Option};
ghost use Rattle.cdc_prog.specs.declared.program.Mark.{Mark as ReadMark};
ghost use Rattle.cdc_fabric.specs.Calls.{Call, Load, Store, Evict, Boundary, last_store};
ghost use Rattle.cdc_fabric.specs.Made.{Layout, IsWrittenList, IsInOrder};
ghost use Rattle.cdc_fabric.specs.declared.counts.Counts.{Counts as CountsOf};

use crate::Counts;
use cdc_prog::Mark;

/// The caches and the memory of a machine: words that processors load and store, between boundaries of epochs.
///
/// Each call is a stated step. A fabric stands for lists of calls, the newest call first; its constructor gives the
/// empty list, and the laws below say that each step carries the relation on and that loads are right.
pub trait Fabric: Drop {
    /// The number of processors.
    ghost procs: { Self → ℕ };

    /// The number of words of memory.
    ghost words: { Self → ℕ };

    /// What it was made for; one that is None counts as made for every list of objects.
    ghost made: { Self → Option Layout };

    /// It keeps the law over every list of calls, orderly or not.
    ghost plain: { Self → Bool };

    /// The number of lines of memory.
    ghost lines: { Self → ℕ };

    /// Whether a line is in the cache of a processor.
    ghost present: { Self → ℕ → ℕ → Bool };

    /// The counts of a processor.
    ghost counts: { Self → ℕ → CountsOf };

    /// It stands for a list of calls.
    ghost stands: { Self → List Call → Type 0 };

    /// A load: before, processor, word, mark, answer, after.
    ghost loads: { Self → ℕ → ℕ → ReadMark → ℤ → Self → Type 0 };

    /// A store: before, processor, word, value, after.
    ghost stores: { Self → ℕ → ℕ → ℤ → Self → Type 0 };

    /// An eviction: before, processor, line, after.
    ghost evicts: { Self → ℕ → ℕ → Self → Type 0 };

    /// A boundary: before, the objects that the closed epoch wrote, after.
    ghost bounds: { Self → List ℕ → Self → Type 0 };

    /// The value of a word, below the number of words, for processor `p`, below the number of processors.
    fn load(&mut self, p: u32, word: u32, mark: Mark) -> i64
        requires proc { p < procs self.old }
        requires word { word < words self.old }
        ensures procs { procs self.new ≡ procs self.old }
        ensures words { words self.new ≡ words self.old }
        ensures made { made self.new ≡ made self.old }
        ensures lines { lines self.new ≡ lines self.old }
        ensures plain { plain self.new ≡ plain self.old }
        ensures step { loads self.old p word mark result self.new };

    /// Gives a word a new value.
    fn store(&mut self, p: u32, word: u32, value: i64)
        requires proc { p < procs self.old }
        requires word { word < words self.old }
        ensures procs { procs self.new ≡ procs self.old }
        ensures words { words self.new ≡ words self.old }
        ensures made { made self.new ≡ made self.old }
        ensures lines { lines self.new ≡ lines self.old }
        ensures plain { plain self.new ≡ plain self.old }
        ensures step { stores self.old p word value self.new };

    /// Drops a line from the cache of processor `p`; whether it was there.
    fn evict(&mut self, p: u32, line: u64) -> bool
        requires proc { p < procs self.old }
        ensures was { result ≡ present self.old p line }
        ensures procs { procs self.new ≡ procs self.old }
        ensures words { words self.new ≡ words self.old }
        ensures made { made self.new ≡ made self.old }
        ensures lines { lines self.new ≡ lines self.old }
        ensures plain { plain self.new ≡ plain self.old }
        ensures step { evicts self.old p line self.new };

    /// Closes an epoch; `written` holds objects in ascending order.
    fn boundary(&mut self, written: &[u32])
        requires written { IsWrittenList (made self.old) written.now }
        ensures procs { procs self.new ≡ procs self.old }
        ensures words { words self.new ≡ words self.old }
        ensures made { made self.new ≡ made self.old }
        ensures lines { lines self.new ≡ lines self.old }
        ensures plain { plain self.new ≡ plain self.old }
        ensures step { bounds self.old written.now self.new };

    /// The counts of processor `p`, without its steps.
    fn counts(&self, p: u32) -> Counts
        requires proc { p < procs self.now }
        ensures counts { result ≡ counts self.now p }
        ensures steps { result.steps ≡ 0 };

    /// The number of lines of memory, at least 1.
    fn lines(&self) -> u64
        ensures lines { result ≡ lines self.now }
        ensures some { 1 ≤ result };

    /// A load gives the value of the last store of its word, or 0.
    ghost load_right: { (old new : Self) (p word : ℕ) (mark : ReadMark) (value : ℤ) (calls : List Call) → p < procs old → word < words old
        → IsInOrder (plain old) (made old) (Load p word mark ∷ calls) → loads old p word mark value new → stands old calls → value ≡ last_store word calls };

    ghost load_carries: { (old new : Self) (p word : ℕ) (mark : ReadMark) (value : ℤ) (calls : List Call) → p < procs old → word < words old
        → IsInOrder (plain old) (made old) (Load p word mark ∷ calls) → loads old p word mark value new → stands old calls → stands new (Load p word mark ∷ calls) };

    ghost store_carries: { (old new : Self) (p word : ℕ) (value : ℤ) (calls : List Call) → p < procs old → word < words old
        → IsInOrder (plain old) (made old) (Store p word value ∷ calls) → stores old p word value new → stands old calls → stands new (Store p word value ∷ calls) };

    ghost evict_carries: { (old new : Self) (p line : ℕ) (calls : List Call) → p < procs old
        → IsInOrder (plain old) (made old) (Evict p line ∷ calls) → evicts old p line new → stands old calls → stands new (Evict p line ∷ calls) };

    ghost boundary_carries: { (old new : Self) (written : List ℕ) (calls : List Call) → IsWrittenList (made old) written
        → IsInOrder (plain old) (made old) (Boundary written ∷ calls) → bounds old written new → stands old calls → stands new (Boundary written ∷ calls) };
}
