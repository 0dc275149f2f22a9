//! Calls on a memory side, and what they are to answer.

ghost use Rattle.std.specs.Prelude.{◌≡◌, ℕ, ◌<◌, ◌∷◌, []};
ghost use Rattle.cdc_fabric.specs.Made.{IsWrittenList};

use cdc_fabric::{Counts, Fabric};
use cdc_prog::Mark;
use cdc_sched::Header;
use std::process::Abort;

/// A call on a memory side.
#[derive(Clone, Copy)]
pub(crate) enum Call {
    /// A load: the processor, the word, the mark, and the value that it has to give.
    Load(u32, u32, Mark, i64),
    /// A store: the processor, the word, and the value.
    Store(u32, u32, i64),
    /// An eviction: the processor, and the line.
    Evict(u32, u64),
    /// A boundary: the object that the closed epoch may have written, where there is one.
    Boundary(Option<u32>),
}

/// A program and the machine that it runs on, as the calls on the memory side.
#[derive(Clone, Copy)]
pub(crate) struct Run {
    pub(crate) header: Header,
    /// The number of its objects, and of their words.
    pub(crate) objects: u32,
    pub(crate) words: u32,
    /// The calls, the first one first.
    pub(crate) calls: &'static [Call],
}

/// The counts of a processor: reads, hits of ordinary and of marked reads, misses, lines that were dropped, and words that
/// boundaries made invalid.
pub(crate) type Row = (u64, u64, u64, u64, u64, u64);

// Closes an epoch.
fn close<F: Fabric>(rt: &impl Abort, fabric: &mut F, objects: u32, written: Option<u32>)
    requires none { IsWrittenList (F.made fabric.old) [] }
    requires one { (object : ℕ) → object < objects → IsWrittenList (F.made fabric.old) (object ∷ []) }
    ensures procs { F.procs fabric.new ≡ F.procs fabric.old }
    ensures words { F.words fabric.new ≡ F.words fabric.old }
    ensures made { F.made fabric.new ≡ F.made fabric.old }
{
    match written {
        Some(object) => {
            assert!(rt; object < objects);
            fabric.boundary(&[object]);
        }
        None => fabric.boundary(&[]),
    }
}

// Makes a call, and compares what a load gives.
fn make<F: Fabric>(rt: &impl Abort, fabric: &mut F, run: &Run, call: Call)
    requires procs { F.procs fabric.old ≡ run.now.header.procs }
    requires words { F.words fabric.old ≡ run.now.words }
    requires none { IsWrittenList (F.made fabric.old) [] }
    requires one { (object : ℕ) → object < run.now.objects → IsWrittenList (F.made fabric.old) (object ∷ []) }
    ensures procs { F.procs fabric.new ≡ F.procs fabric.old }
    ensures words { F.words fabric.new ≡ F.words fabric.old }
    ensures made { F.made fabric.new ≡ F.made fabric.old }
{
    match call {
        Call::Load(p, word, mark, value) => {
            assert!(rt; p < run.header.procs && word < run.words);
            assert_eq!(rt; fabric.load(p, word, mark), value, "word {word}");
        }
        Call::Store(p, word, value) => {
            assert!(rt; p < run.header.procs && word < run.words);
            fabric.store(p, word, value);
        }
        Call::Evict(p, line) => {
            assert!(rt; p < run.header.procs);
            fabric.evict(p, line);
        }
        Call::Boundary(written) => close(rt, fabric, run.objects, written),
    }
}

/// Makes the calls, the first one first, and compares what each load gives.
pub(crate) fn make_all<F: Fabric>(rt: &impl Abort, fabric: &mut F, run: &Run)
    requires procs { F.procs fabric.old ≡ run.now.header.procs }
    requires words { F.words fabric.old ≡ run.now.words }
    requires none { IsWrittenList (F.made fabric.old) [] }
    requires one { (object : ℕ) → object < run.now.objects → IsWrittenList (F.made fabric.old) (object ∷ []) }
    ensures procs { F.procs fabric.new ≡ F.procs fabric.old }
{
    for call in run.calls {
        make(rt, fabric, run, *call);
    }
}

// The counts that a row stands for; a memory side counts no steps.
fn counts_of(row: Row) -> Counts {
    let (reads, ordinary, marked, misses, evicted, invalidated) = row;
    Counts {
        steps: 0,
        reads,
        ordinary,
        marked,
        misses,
        evicted,
        invalidated,
    }
}

/// Compares the counts of each processor.
pub(crate) fn compare<F: Fabric>(rt: &impl Abort, fabric: &F, procs: u32, rows: &[Row])
    requires { F.procs fabric.now ≡ procs }
{
    assert!(rt; rows.len() == procs as usize);
    for p in 0..procs {
        let want = counts_of(rows[p as usize]);
        assert_eq!(rt; fabric.counts(p), want, "processor {p}");
    }
}
