//! Schemes: the stamps of cached words, the copies that a read may use, and the boundaries between epochs.

ghost use Rattle.std.specs.Prelude.{◌≡◌, ◌<◌, ◌≤◌, ℕ, List, [], ◌∷◌, Option, Some, Bool, All, IfOk, IsTrue};
ghost use Rattle.std.specs.List.Sorted.{IsStrictlyIncreasing};
ghost use Rattle.cdc_prog.specs.declared.program.Mark.{Mark};
ghost use Rattle.cdc_prog.specs.declared.program.Mark.TheVariants.{Time};
ghost use Rattle.cdc_scheme.specs.TrueTime.{present, beside, WasDated, IsYoung, Covers};

use cdc_base::NoMemory;
use cdc_prog::Mark;
use std::alloc::Global;

/// A scheme that keeps processors from reading stale copies, with no messages between their caches.
///
/// A program runs in epochs. Before each boundary between two epochs the compiler lists the objects that the epoch which
/// ends may have written, and it marks each read that may follow a write by another processor with the number of
/// boundaries that lie between the two at least. The scheme keeps a word of its own with each cached word, and a state
/// that every processor has alike.
///
/// What each call gives is a function of the state (`target_of` and so on), and what a boundary does is a relation
/// (`closes`). Two laws follow, over every list of boundaries, fills and writes from the start on in which each boundary's
/// list holds the object of each write of the epoch that it ends: a copy that a marked read is let use is young
/// (`first`), and a boundary drops a word or leaves its true time (`second`). In them `lists` are the written lists of the
/// boundaries so far, the newest first, `objects` those that were written in the present epoch, and `made` is a word's true
/// time, counted from 1.
pub trait Scheme {
    /// What the scheme keeps with each cached word.
    type Word: Copy;

    /// What each processor keeps alike.
    type State: Drop;

    /// Whether there are caches at all.
    ghost has_caches: { Bool };

    /// The widths for which the scheme is there.
    ghost fits_width: { ℕ → Type 0 };

    /// A state at the start of a run, for this width and this number of objects.
    ghost starts: { ℕ → ℕ → Self.State → Type 0 };

    /// Whether an object is one of those for which the state was made.
    ghost has_object: { Self.State → ℕ → Bool };

    /// The word of a copy that a miss reads, from its object and the word that was there.
    ghost target_of: { Self.State → ℕ → Option Self.Word → Self.Word };

    /// The same of a copy that comes in beside it.
    ghost neighbour_of: { Self.State → ℕ → Option Self.Word → Self.Word };

    /// The word of a copy that its processor writes.
    ghost wrote_of: { Self.State → ℕ → Self.Word };

    /// Whether a read with this mark may use a copy.
    ghost admits_of: { Self.State → ℕ → Mark → Self.Word → Bool };

    /// The word of a copy past a boundary with this written list, or nothing where the copy is no longer valid.
    ghost keeps_of: { Self.State → List ℕ → ℕ → Self.Word → Option Self.Word };

    /// A boundary with this written list leads from one state to another.
    ghost closes: { Self.State → List ℕ → Self.State → Type 0 };

    /// A state after boundaries with these written lists, and after writes of these objects since.
    ghost knows: { Self.State → List (List ℕ) → List ℕ → Type 0 };

    /// Beside such a state, a copy of an object with this word was made then.
    ghost dates: { Self.State → List (List ℕ) → List ℕ → ℕ → Self.Word → ℕ → Type 0 };

    /// A state at the start of a run, for numbers of `width` bits and for `objects` objects.
    ///
    /// # Errors
    ///
    /// `NoMemory` where there is none for the state. No other call takes memory.
    fn start(alloc: Global, width: u32, objects: u32) -> Result<Self::State, NoMemory>
        requires width { fits_width width }
        ensures start { IfOk result (starts width objects) }
        ensures objects { IfOk result (λ state. (object : ℕ) → object < objects → IsTrue (has_object state object)) };

    /// Whether there are caches; where there are none, every read goes to memory.
    fn caches() -> bool
        ensures { result ≡ has_caches };

    /// The word of a copy that a miss reads; `old` is the word of the copy that was there, where one was valid.
    fn target(state: &Self::State, object: u32, old: Option<Self::Word>) -> Self::Word
        requires object { IsTrue (has_object state.now object) }
        ensures { result ≡ target_of state.now object old };

    /// The word of a copy that comes in with the line of the one that is read; `old` is as in `target`.
    fn neighbour(state: &Self::State, object: u32, old: Option<Self::Word>) -> Self::Word
        requires object { IsTrue (has_object state.now object) }
        ensures { result ≡ neighbour_of state.now object old };

    /// The word of a copy that its processor writes.
    fn wrote(state: &Self::State, object: u32) -> Self::Word
        requires object { IsTrue (has_object state.now object) }
        ensures { result ≡ wrote_of state.now object };

    /// Whether a read with this mark may use a valid copy with this word.
    fn admits(state: &Self::State, object: u32, mark: Mark, word: Self::Word) -> bool
        requires object { IsTrue (has_object state.now object) }
        ensures { result ≡ admits_of state.now object mark word };

    /// The word of a valid copy past a boundary with this written list, or `None` where the copy becomes invalid. It is
    /// asked on the state before that boundary.
    fn keeps(
        state: &Self::State,
        written: &[u32],
        object: u32,
        word: Self::Word,
    ) -> Option<Self::Word>
        requires object { IsTrue (has_object state.now object) }
        requires known { All (λ object. IsTrue (has_object state.now object)) written.now }
        requires order { IsStrictlyIncreasing written.now }
        ensures { result ≡ keeps_of state.now written.now object word };

    /// Ends the epoch; `written` are the objects that it may have written, ascending.
    fn boundary(state: &mut Self::State, written: &[u32])
        requires known { All (λ object. IsTrue (has_object state.now object)) written.now }
        requires order { IsStrictlyIncreasing written.now }
        ensures step { closes state.old written.now state.new }
        ensures objects { (object : ℕ) → IsTrue (has_object state.old object) → IsTrue (has_object state.new object) };

    /// At a start no boundary and no write has come.
    ghost knows_start: { (width count : ℕ) (state : Self.State) → starts width count state → knows state [] [] };

    /// A write, of whatever object, leaves the state.
    ghost knows_write: { (state : Self.State) (lists : List (List ℕ)) (objects : List ℕ) (other : ℕ) → knows state lists objects
        → knows state lists (other ∷ objects) };

    /// A boundary adds its list; in the epoch that it begins no write has come yet.
    ghost knows_boundary: { (state after : Self.State) (lists : List (List ℕ)) (objects written : List ℕ)
        → knows state lists objects → Covers written objects → closes state written after
        → knows after (written ∷ lists) [] };

    /// A write elsewhere leaves a copy's true time.
    ghost dates_write: { (state : Self.State) (lists : List (List ℕ)) (objects : List ℕ) (other object made : ℕ) (word : Self.Word)
        → dates state lists objects object word made → dates state lists (other ∷ objects) object word made };

    /// A copy that a miss reads is of the present epoch.
    ghost dates_target: { (state : Self.State) (lists : List (List ℕ)) (objects : List ℕ) (object before : ℕ) (old : Option Self.Word)
        → knows state lists objects → WasDated (dates state lists objects object) old before
        → dates state lists objects object (target_of state object old) (present lists) };

    /// One that comes in beside it is of the epoch before, or as new as the copy that was there.
    ghost dates_neighbour: { (state : Self.State) (lists : List (List ℕ)) (objects : List ℕ) (object before : ℕ) (old : Option Self.Word)
        → knows state lists objects → WasDated (dates state lists objects object) old before
        → dates state lists objects object (neighbour_of state object old) (beside lists before) };

    /// A copy that its processor writes is of the present epoch.
    ghost dates_wrote: { (state : Self.State) (lists : List (List ℕ)) (objects : List ℕ) (object : ℕ) → knows state lists objects
        → dates state lists (object ∷ objects) object (wrote_of state object) (present lists) };

    /// The first law: a copy that a marked read is let use is young.
    ghost first: { (state : Self.State) (lists : List (List ℕ)) (objects : List ℕ) (object made d : ℕ) (word : Self.Word)
        → knows state lists objects → dates state lists objects object word made → 1 ≤ d
        → IsTrue (admits_of state object (Time d) word) → IsYoung d lists object made };

    /// The second law: a boundary makes a copy invalid or leaves its true time.
    ghost second: { (state after : Self.State) (lists : List (List ℕ)) (objects written : List ℕ) (object made : ℕ) (word kept : Self.Word)
        → knows state lists objects → Covers written objects → dates state lists objects object word made
        → keeps_of state written object word ≡ Some kept → closes state written after
        → dates after (written ∷ lists) [] object kept made };
}
