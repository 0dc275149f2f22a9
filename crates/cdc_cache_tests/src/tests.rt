//! The programs on each memory side.

ghost use Rattle.std.specs.Prelude.{◌≡◌, ◌<◌, ◌≤◌, ◌+◌, ◌^◌, length, IfOk};
ghost use Rattle.cdc_sched.specs.Limits.{IsHeader};
ghost use Rattle.cdc_cache.specs.Processors.{LieFrom};

use crate::calls::{Row, Run, compare, make_all};
use crate::programs::{EV, OWN, SHARE, VERS, WRAP};
use cdc_base::{List, NoMemory};
use cdc_cache::{Access, Cache, Caches, Words};
use cdc_fabric::Uncached;
use cdc_phase::Phase;
use cdc_prog::{Mark, Object};
use cdc_sched::{Geometry, Header, SchemeName};
use cdc_scheme::Scheme;
use cdc_select::Select;
use cdc_version::Version;
use std::alloc::Global;
use std::process::Abort;
use std::test::Fail;

// An object of so many words from word `base` on.
fn object(alloc: Global, base: u32, words: u32) -> Object
    ensures base { result.base ≡ base }
    ensures words { result.words ≡ words }
{
    Object {
        unit: 0,
        name: List::new(alloc),
        dims: List::new(alloc),
        base,
        words,
    }
}

// One object of one word.
fn one_object(alloc: Global) -> Result<List<Object>, NoMemory>
    ensures many { IfOk result (λ objects. length objects ≡ 1) }
    ensures lie { IfOk result (λ objects. LieFrom 0 objects 1) }
{
    Ok(List::of(vec![in alloc; object(alloc, 0, 1)]?))
}

// Three objects of so many words, one after another.
fn three_objects(
    alloc: Global,
    first: u32,
    second: u32,
    third: u32,
) -> Result<List<Object>, NoMemory>
    requires { first + second + third < 2 ^ 32 }
    ensures many { IfOk result (λ objects. length objects ≡ 3) }
    ensures lie { IfOk result (λ objects. LieFrom 0 objects (first + second + third)) }
{
    Ok(List::of(vec![in alloc;
        object(alloc, 0, first),
        object(alloc, first, second),
        object(alloc, first + second, third),
    ]?))
}

// Runs a program on the caches of a scheme; compares what its loads give, and what is counted.
fn run_on_caches<S: Scheme>(
    rt: &impl Abort,
    alloc: Global,
    run: &Run,
    objects: &List<Object>,
    rows: &[Row],
) -> Result<(), NoMemory>
    requires header { IsHeader run.now.header }
    requires width { S.fits_width run.now.header.width }
    requires most { length objects.now ≤ 1024 }
    requires many { length objects.now ≡ run.now.objects }
    requires lie { LieFrom 0 objects.now run.now.words }
{
    let mut caches = Caches::<S>::new(alloc, &run.header, objects, run.words)?;
    make_all(rt, &mut caches, run);
    compare(rt, &caches, run.header.procs, rows);
    Ok(())
}

#[test]
#[tactic(auto, using(crate::proofs::Powers::one, crate::proofs::Powers::two, crate::proofs::Powers::four))]
fn selective_invalidation(rt: HostRuntime) -> Result<(), Fail> {
    let own = Run {
        header: Header {
            scheme: SchemeName::Si,
            width: 0,
            ..OWN.header
        },
        ..OWN
    };
    let rows = [(4, 0, 1, 3, 0, 0), (2, 0, 0, 2, 0, 0)];
    run_on_caches::<Select>(
        &rt,
        rt.alloc(),
        &own,
        &three_objects(rt.alloc(), 2, 2, 1)?,
        &rows,
    )?;
    let rows = [(2, 0, 0, 2, 1, 0)];
    run_on_caches::<Select>(&rt, rt.alloc(), &EV, &one_object(rt.alloc())?, &rows)?;
    Ok(())
}

#[test]
#[tactic(auto, using(crate::proofs::Powers::one, crate::proofs::Powers::two, crate::proofs::Powers::four))]
fn version_control(rt: HostRuntime) -> Result<(), Fail> {
    let own = Run {
        header: Header {
            scheme: SchemeName::Vc,
            ..OWN.header
        },
        ..OWN
    };
    let rows = [(4, 0, 2, 2, 0, 0), (2, 0, 1, 1, 0, 0)];
    run_on_caches::<Version>(
        &rt,
        rt.alloc(),
        &own,
        &three_objects(rt.alloc(), 2, 2, 1)?,
        &rows,
    )?;
    let rows = [(16, 0, 12, 4, 0, 2)];
    run_on_caches::<Version>(
        &rt,
        rt.alloc(),
        &VERS,
        &three_objects(rt.alloc(), 1, 1, 1)?,
        &rows,
    )?;
    Ok(())
}

#[test]
#[tactic(auto, using(crate::proofs::Powers::one, crate::proofs::Powers::two, crate::proofs::Powers::four))]
fn two_phase_invalidation(rt: HostRuntime) -> Result<(), Fail> {
    let rows = [
        (1, 0, 0, 1, 0, 0),
        (5, 0, 2, 3, 0, 0),
        (2, 0, 0, 2, 0, 0),
        (2, 0, 0, 2, 0, 0),
    ];
    run_on_caches::<Phase>(
        &rt,
        rt.alloc(),
        &SHARE,
        &three_objects(rt.alloc(), 4, 4, 1)?,
        &rows,
    )?;
    let rows = [(4, 0, 2, 2, 0, 0), (2, 0, 1, 1, 0, 0)];
    run_on_caches::<Phase>(
        &rt,
        rt.alloc(),
        &OWN,
        &three_objects(rt.alloc(), 2, 2, 1)?,
        &rows,
    )?;
    let rows = [(3, 0, 0, 3, 0, 1), (0, 0, 0, 0, 0, 0)];
    run_on_caches::<Phase>(
        &rt,
        rt.alloc(),
        &WRAP,
        &three_objects(rt.alloc(), 1, 1, 1)?,
        &rows,
    )?;
    Ok(())
}

#[test]
fn memory_without_caches(rt: HostRuntime) -> Result<(), Fail> {
    let share = [
        (1, 0, 0, 1, 0, 0),
        (5, 0, 0, 5, 0, 0),
        (2, 0, 0, 2, 0, 0),
        (2, 0, 0, 2, 0, 0),
    ];
    let own = [(4, 0, 0, 4, 0, 0), (2, 0, 0, 2, 0, 0)];
    let wrap = [(3, 0, 0, 3, 0, 0), (0, 0, 0, 0, 0, 0)];
    let vers = [(16, 0, 0, 16, 0, 0)];
    let ev = [(2, 0, 0, 2, 0, 0)];
    for (run, rows) in [
        (SHARE, share.as_slice()),
        (OWN, own.as_slice()),
        (WRAP, wrap.as_slice()),
        (VERS, vers.as_slice()),
        (EV, ev.as_slice()),
    ] {
        let mut memory = Uncached::new(rt.alloc(), run.words, run.header.procs)?;
        make_all(&rt, &mut memory, &run);
        compare(&rt, &memory, run.header.procs, rows);
    }
    Ok(())
}

#[test]
fn a_full_set_drops_the_line_that_came_in_first(rt: HostRuntime) -> Result<(), Fail> {
    let geometry = Geometry {
        words: 1,
        sets: 1,
        ways: 2,
    };
    let memory = Words {
        cells: List::of(vec![in rt.alloc(); 7, 8, 9]?),
        owner: List::of(vec![in rt.alloc(); 0, 0, 0]?),
    };
    let mut cache = Cache::<Select>::new(rt.alloc(), geometry)?;
    assert!(rt; !cache.evict(0));
    for (word, value, access) in [
        (0, 7, Access::Miss { evicted: false }),
        (1, 8, Access::Miss { evicted: false }),
        (0, 7, Access::OrdinaryHit),
        (2, 9, Access::Miss { evicted: true }),
    ] {
        assert!(rt; word < 3);
        let read = cache.read(&(), &memory, word, Mark::Ordinary);
        assert_eq!(rt; read, (value, access), "word {word}");
    }
    for (line, was) in [(0, false), (1, true), (2, true)] {
        assert_eq!(rt; cache.evict(line), was, "line {line}");
    }
    Ok(())
}
