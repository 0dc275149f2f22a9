//! One program, and orders of events in which it is carried out.

use crate::watched::Call::{self, Boundary, Evict, Load, Store};

/// The words are `A(1)` to `A(4)`, `N`, `M` and `I`, so lines 0 to 3 are there. Nothing stores in `A(4)`.
///
/// The code before the loop has ten instructions: the second stores `N`, the third loads it, the sixth stores `M`, and the last
/// is the fork. Each iteration has seven: the fourth loads `M`, the sixth stores, and the last is the join. The code behind the
/// loop has twenty: the third, the sixth, the tenth and the fourteenth load from `A`, the sixteenth stores `N`, the next loads it,
/// and the last halts. The epoch before the loop writes two objects, and that of the loop one.
pub(crate) const SOURCE: &str =
    "PROGRAM Q\nINTEGER A(4)\nN = 5\nM = N + 2\nDOALL I = 1, 3\nA(I) = I * M\nEND DOALL\nN = A(1) + A(2) + A(3) + A(4)\nPRINT *, N\nEND\n";

/// The words of memory.
pub(crate) const WORDS: u32 = 7;

/// 7 + 14 + 21 + 0, whatever the order is.
pub(crate) const OUTPUT: &str = "42\n";

/// An order of events.
#[derive(Clone, Copy)]
pub(crate) struct Order {
    pub(crate) procs: u32,
    pub(crate) tail: &'static str,
    /// The listed events, a line each.
    pub(crate) events: &'static str,
    /// How many events are applied, and how many of them are idle.
    pub(crate) applied: u64,
    pub(crate) idle: u64,
}

/// Two processors in turn. The first takes the code before the loop, and the second, which is idle ten times, closes its epoch.
/// Then they take iterations 0 and 1 and go through them side by side, so each instruction of the first comes directly before
/// that of the second. The first takes the last iteration, while the second is idle seven times and then closes the epoch; and
/// the first takes the rest, while the second is idle twenty times.
pub(crate) const IN_TURN: Order = Order {
    procs: 2,
    tail: "rr",
    events: "",
    applied: 95,
    idle: 37,
};

/// The calls of `IN_TURN`.
pub(crate) const CALLS_IN_TURN: [Call; 17] = [
    Store(0, 4, 5),
    Load(0, 4, 5),
    Store(0, 5, 7),
    Boundary(2),
    Load(0, 5, 7),
    Load(1, 5, 7),
    Store(0, 0, 7),
    Store(1, 1, 14),
    Load(0, 5, 7),
    Store(0, 2, 21),
    Boundary(1),
    Load(0, 0, 7),
    Load(0, 1, 14),
    Load(0, 2, 21),
    Load(0, 3, 0),
    Store(0, 4, 42),
    Load(0, 4, 42),
];

/// Three processors, each of which has an iteration, the last one first. Each loads before another stores, and lines are dropped
/// between. Four events are idle: two that take, one of a processor with nothing to do, and one that drops.
pub(crate) const TANGLED: Order = Order {
    procs: 3,
    tail: "none",
    events: "
        # The second processor runs the code before the loop, and the first closes its epoch.
        take 1 0
        step 1 10
        evict 1 2
        step 0
        # Each takes an iteration. The first cannot take another.
        take 0 2
        take 1 0
        take 2 1
        take 0 1
        # The third comes before its load, and the first behind its store. Then the third loads, and so does the second.
        step 2 3
        step 0 6
        step 2
        evict 2 2
        step 1 4
        # The first joins, and has nothing more to do.
        step 0
        next 0
        # The third stores; the second stores and joins. There is no line 4.
        step 2 2
        step 1 3
        evict 0 4
        # The third joins, closes the epoch and takes the code behind the loop, which is one task.
        step 2
        next 2
        take 0 1
        next 2
        # It has the sum, stores it, loads it, prints it and halts.
        step 2 15
        evict 2 0
        next 2 5
        # This event is not applied any more.
        step 2
    ",
    applied: 65,
    idle: 4,
};

/// The calls of `TANGLED`.
pub(crate) const CALLS_TANGLED: [Call; 21] = [
    Store(1, 4, 5),
    Load(1, 4, 5),
    Store(1, 5, 7),
    Evict(1, 2),
    Boundary(2),
    Load(0, 5, 7),
    Store(0, 2, 21),
    Load(2, 5, 7),
    Evict(2, 2),
    Load(1, 5, 7),
    Store(2, 1, 14),
    Store(1, 0, 7),
    Evict(0, 4),
    Boundary(1),
    Load(2, 0, 7),
    Load(2, 1, 14),
    Load(2, 2, 21),
    Load(2, 3, 0),
    Evict(2, 0),
    Store(2, 4, 42),
    Load(2, 4, 42),
];

/// Further orders.
pub(crate) const ORDERS: [Order; 7] = [
    Order {
        procs: 1,
        tail: "rr",
        events: "",
        applied: 58,
        idle: 0,
    },
    Order {
        procs: 3,
        tail: "rr",
        events: "",
        applied: 118,
        idle: 60,
    },
    // The iterations from the last one on; a line is dropped twice.
    Order {
        procs: 2,
        tail: "rr",
        events: "step 1 5\nnext 1 12\ntake 1 2\nnext 1 7\ntake 1 1\nevict 1 0\nevict 1 0\ntake 0 0\nstep 1 7\nevict 0 3\n",
        applied: 92,
        idle: 31,
    },
    // The second processor alone, into the code behind the loop.
    Order {
        procs: 3,
        tail: "rr",
        events: "next 1 40\ntake 0 1\nstep 1 5\nnext 2 60\n",
        applied: 144,
        idle: 86,
    },
    Order {
        procs: 3,
        tail: "random 1",
        events: "take 2 0\nstep 2 10\nevict 0 2\nstep 2\ntake 0 0\nstep 0 4\nevict 1 2\ntake 2 2\nstep 2 5\ntake 1 1\nstep 1 3\nevict 2 1\n",
        applied: 119,
        idle: 52,
    },
    Order {
        procs: 1,
        tail: "random 7",
        events: "",
        applied: 60,
        idle: 0,
    },
    Order {
        procs: 3,
        tail: "random 20261202",
        events: "",
        applied: 130,
        idle: 67,
    },
];
