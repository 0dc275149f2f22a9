//! The orders of events on the memory side that keeps its calls.

use crate::orders::{
    CALLS_IN_TURN, CALLS_TANGLED, IN_TURN, ORDERS, OUTPUT, Order, SOURCE, TANGLED, WORDS,
};
use crate::runs::{Memory, run_on};
use crate::watched::{Call, Log, Watched};
use cdc_base::MemSink;
use cdc_replay::{Outcome, Tally};
use std::alloc::Global;
use std::fmt::Write;
use std::process::Abort;
use std::test::Fail;

// Runs the program in an order, compares what it printed and how it ended, and gives the calls.
fn run_order(rt: &impl Abort, alloc: Global, order: &Order) -> Result<Log, Fail> {
    let mut log = Log::new();
    let schedule = format!(in alloc;
        "cdc 1\nscheme direct\nprocs {}\ncache 1 1 1\nbound 1000\ntail {}\nevents\n{}",
        order.procs, order.tail, order.events
    )?;
    let memory = Memory {
        side: Watched::new(alloc, WORDS, order.procs, &mut log)?,
        words: WORDS,
        procs: order.procs,
    };
    let mut out = MemSink::new(alloc, 100, Vec::new(alloc))?;
    let played = run_on(rt, alloc, SOURCE, schedule.into_bytes(), memory, &mut out)?;
    let Order { tail, events, .. } = *order;
    assert_eq!(rt; out.bytes(), OUTPUT.as_bytes(), "{tail}: {events}");
    assert_eq!(rt; played.end, Outcome::Done, "{tail}: {events}");
    let tally = Tally {
        events: order.applied,
        idle: order.idle,
    };
    assert_eq!(rt; played.tally, tally, "{tail}: {events}");
    assert!(rt; !played.is_open);
    Ok(log)
}

// The value of the last store of a word in these calls, or 0.
fn last_stored(calls: &[Call], word: u32) -> i64 {
    let mut last = 0;
    for call in calls {
        if let Call::Store(_, stored, value) = *call {
            if stored == word {
                last = value;
            }
        }
    }
    last
}

// Each load gave the value of the last store of its word, or 0.
fn compare_loads(rt: &impl Abort, calls: &[Call]) {
    for at in 0..calls.len() {
        if let Call::Load(_, word, value) = calls[at] {
            assert_eq!(rt; value, last_stored(&calls[..at], word), "call {at}");
        }
    }
}

#[test]
fn each_order_has_the_sequential_output(rt: HostRuntime) -> Result<(), Fail> {
    for order in ORDERS {
        let log = run_order(&rt, rt.alloc(), &order)?;
        assert!(rt; !log.is_full());
        compare_loads(&rt, log.as_slice());
    }
    Ok(())
}

#[test]
fn the_calls_follow_from_the_events(rt: HostRuntime) -> Result<(), Fail> {
    for (order, calls) in [
        (IN_TURN, CALLS_IN_TURN.as_slice()),
        (TANGLED, CALLS_TANGLED.as_slice()),
    ] {
        let log = run_order(&rt, rt.alloc(), &order)?;
        assert_eq!(rt; log.as_slice(), calls);
        compare_loads(&rt, log.as_slice());
    }
    Ok(())
}
