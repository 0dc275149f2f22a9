//! The programs, as the lists of calls that the machine makes for them.

use crate::calls::Call::{Boundary, Evict, Load, Store};
use crate::calls::Run;
use cdc_prog::Mark::{Ordinary, Time};
use cdc_sched::{Geometry, Header, SchemeName, TailKind};

/// Each processor writes a word of one line, and reads another word of that line two boundaries later. The words are
/// `A(1)` to `A(4)`, `B(1)` to `B(4)`, and `I`; lines are of 4 words. Four processors take turns.
///
/// ```text
/// PROGRAM SHARE
/// INTEGER A(4), B(4)
/// DOALL I = 1, 4
/// A(I) = A(I) + I
/// END DOALL
/// DOALL I = 1, 3
/// B(I) = A(I + 1)
/// END DOALL
/// PRINT *, B(1), B(2), B(3)
/// END
/// ```
pub(crate) const SHARE: Run = Run {
    header: Header {
        scheme: SchemeName::Tpi,
        width: 8,
        procs: 4,
        geometry: Geometry {
            words: 4,
            sets: 4,
            ways: 1,
        },
        bound: 1000,
        tail: TailKind::RoundRobin,
    },
    objects: 3,
    words: 9,
    calls: &[
        Boundary(None),
        Load(2, 0, Ordinary, 0),
        Load(3, 1, Ordinary, 0),
        Load(0, 2, Ordinary, 0),
        Load(1, 3, Ordinary, 0),
        Store(2, 0, 1),
        Store(3, 1, 2),
        Store(0, 2, 3),
        Store(1, 3, 4),
        Boundary(Some(0)),
        Boundary(None),
        Load(1, 1, Time(2), 2),
        Load(2, 2, Time(2), 3),
        Load(3, 3, Time(2), 4),
        Store(1, 4, 2),
        Store(2, 5, 3),
        Store(3, 6, 4),
        Boundary(Some(1)),
        Load(1, 4, Time(1), 2),
        Load(1, 5, Time(1), 3),
        Load(1, 6, Time(1), 4),
    ],
};

/// Each of two processors reads back what it wrote. The words are `A(1)`, `A(2)`, `B(1)`, `B(2)` and `I`; lines are of 2
/// words. The processors take turns.
///
/// ```text
/// PROGRAM OWN
/// INTEGER A(2), B(2)
/// DOALL I = 1, 2
/// A(I) = A(I) + I
/// END DOALL
/// DOALL I = 1, 2
/// B(I) = A(3 - I)
/// END DOALL
/// PRINT *, B(1), B(2)
/// END
/// ```
pub(crate) const OWN: Run = Run {
    header: Header {
        scheme: SchemeName::Tpi,
        width: 8,
        procs: 2,
        geometry: Geometry {
            words: 2,
            sets: 4,
            ways: 1,
        },
        bound: 1000,
        tail: TailKind::RoundRobin,
    },
    objects: 3,
    words: 5,
    calls: &[
        Boundary(None),
        Load(0, 0, Ordinary, 0),
        Load(1, 1, Ordinary, 0),
        Store(0, 0, 1),
        Store(1, 1, 2),
        Boundary(Some(0)),
        Boundary(None),
        Load(1, 1, Time(2), 2),
        Load(0, 0, Time(2), 1),
        Store(1, 2, 2),
        Store(0, 3, 1),
        Boundary(Some(1)),
        Load(0, 2, Time(1), 2),
        Load(0, 3, Time(1), 1),
    ],
};

/// A copy is read again once four boundaries came, and a write by another processor. The words are `A(1)`, `B(1)` and `I`,
/// each a line. The first processor runs all but the serial stretch that assigns `A(1)`.
///
/// ```text
/// PROGRAM WRAP
/// INTEGER A(1), B(1)
/// DOALL I = 1, 1
/// B(I) = A(I)
/// END DOALL
/// DOALL I = 1, 1
/// B(I) = 7
/// END DOALL
/// A(1) = 5
/// DOALL I = 1, 1
/// B(I) = A(I)
/// END DOALL
/// PRINT *, B(1)
/// END
/// ```
pub(crate) const WRAP: Run = Run {
    header: Header {
        scheme: SchemeName::Tpi,
        width: 2,
        procs: 2,
        geometry: Geometry {
            words: 1,
            sets: 4,
            ways: 1,
        },
        bound: 100,
        tail: TailKind::None,
    },
    objects: 3,
    words: 3,
    calls: &[
        Boundary(None),
        Load(0, 0, Ordinary, 0),
        Store(0, 1, 0),
        Boundary(Some(1)),
        Boundary(None),
        Store(0, 1, 7),
        Boundary(Some(1)),
        Store(1, 0, 5),
        Boundary(Some(0)),
        Load(0, 0, Time(1), 5),
        Store(0, 1, 5),
        Boundary(Some(1)),
        Load(0, 1, Time(1), 5),
    ],
};

/// One element and the variable of a loop are written in turn, on one processor. The words are `A(1)`, `K` and `I`, each a
/// line.
///
/// ```text
/// PROGRAM VERS
/// INTEGER A(1)
/// DO K = 1, 5
/// DOALL I = 1, 1
/// A(I) = A(I) + K
/// END DOALL
/// END DO
/// PRINT *, A(1)
/// END
/// ```
pub(crate) const VERS: Run = Run {
    header: Header {
        scheme: SchemeName::Vc,
        width: 2,
        procs: 1,
        geometry: Geometry {
            words: 1,
            sets: 4,
            ways: 1,
        },
        bound: 1000,
        tail: TailKind::RoundRobin,
    },
    objects: 3,
    words: 3,
    calls: &[
        Store(0, 1, 1),
        Boundary(Some(1)),
        Load(0, 0, Time(2), 0),
        Load(0, 1, Time(1), 1),
        Store(0, 0, 1),
        Boundary(Some(0)),
        Load(0, 1, Time(2), 1),
        Store(0, 1, 2),
        Boundary(Some(1)),
        Load(0, 0, Time(2), 1),
        Load(0, 1, Time(1), 2),
        Store(0, 0, 3),
        Boundary(Some(0)),
        Load(0, 1, Time(2), 2),
        Store(0, 1, 3),
        Boundary(Some(1)),
        Load(0, 0, Time(2), 3),
        Load(0, 1, Time(1), 3),
        Store(0, 0, 6),
        Boundary(Some(0)),
        Load(0, 1, Time(2), 3),
        Store(0, 1, 4),
        Boundary(Some(1)),
        Load(0, 0, Time(2), 6),
        Load(0, 1, Time(1), 4),
        Store(0, 0, 10),
        Boundary(Some(0)),
        Load(0, 1, Time(2), 4),
        Store(0, 1, 5),
        Boundary(Some(1)),
        Load(0, 0, Time(2), 10),
        Load(0, 1, Time(1), 5),
        Store(0, 0, 15),
        Boundary(Some(0)),
        Load(0, 1, Time(2), 5),
        Store(0, 1, 6),
        Load(0, 0, Time(1), 15),
    ],
};

/// A line is dropped between two reads of its word. The word is `N`. One processor runs the program; an event drops the
/// line after the first read, and a second one finds it gone.
///
/// ```text
/// PROGRAM EV
/// N = 2 + 3
/// PRINT *, N + N
/// END
/// ```
pub(crate) const EV: Run = Run {
    header: Header {
        scheme: SchemeName::Si,
        width: 0,
        procs: 1,
        geometry: Geometry {
            words: 1,
            sets: 1,
            ways: 1,
        },
        bound: 100,
        tail: TailKind::None,
    },
    objects: 1,
    words: 1,
    calls: &[
        Store(0, 0, 5),
        Load(0, 0, Ordinary, 5),
        Evict(0, 0),
        Evict(0, 0),
        Load(0, 0, Ordinary, 5),
    ],
};
