//! The memory sides: one with a cache under two-phase invalidation, and one without.

ghost use Rattle.std.specs.Prelude.{◌≤◌, length, IfOk};
ghost use Rattle.cdc_sched.specs.Limits.{IsHeader};
ghost use Rattle.cdc_cache.specs.Processors.{LieFrom};

use crate::calls::{Outcome, make_calls};
use crate::kind::{Kind, LINE, LINES};
use cdc_base::{List, NoMemory};
use cdc_cache::Caches;
use cdc_fabric::Uncached;
use cdc_phase::Phase;
use cdc_prog::Object;
use cdc_sched::{Geometry, Header, SchemeName, TailKind};
use std::alloc::Global;

const WORDS: u32 = LINE * LINES;

// One processor with a cache of 8 sets of 2 lines, and tags of 8 bits.
#[tactic(auto, using(crate::proofs::Powers::four, crate::proofs::Powers::eight))]
fn header() -> Header
    ensures header { IsHeader result }
    ensures wide { 2 ≤ result.width }
    ensures narrow { result.width ≤ 16 }
    ensures procs { 1 ≤ result.procs }
{
    Header {
        scheme: SchemeName::Tpi,
        width: 8,
        procs: 1,
        geometry: Geometry {
            words: LINE,
            sets: 8,
            ways: 2,
        },
        bound: 0,
        tail: TailKind::None,
    }
}

// One object that has all words of memory.
fn objects(alloc: Global) -> Result<List<Object>, NoMemory>
    ensures many { IfOk result (λ objects. length objects ≤ 1024) }
    ensures lie { IfOk result (λ objects. LieFrom 0 objects 4096) }
{
    let object = Object {
        unit: 0,
        name: List::new(alloc),
        dims: List::new(alloc),
        base: 0,
        words: WORDS,
    };
    let mut all = Vec::new(alloc);
    all.push(object)?;
    Ok(List::of(all))
}

/// Makes so many calls of this kind, on the memory side that it names.
///
/// # Errors
///
/// Memory ran out.
pub fn outcome_on(alloc: Global, calls: u32, kind: Kind) -> Result<Outcome, NoMemory> {
    match kind {
        Kind::Hits | Kind::Misses => {
            let objects = objects(alloc)?;
            let mut side = Caches::<Phase>::new(alloc, &header(), &objects, WORDS)?;
            Ok(make_calls(&mut side, calls, kind))
        }
        Kind::Plain => {
            let mut side = Uncached::new(alloc, WORDS, 1)?;
            Ok(make_calls(&mut side, calls, kind))
        }
    }
}
