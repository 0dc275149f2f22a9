//! What no clause says: that calls succeed where memory is there, and the printed texts. Beside these the commands over files,
//! words that are none, and faults.

use cdc_base::{CountSink, MemSink, MemStore, PlainStore};
use cdc_top::run_tool;
use std::alloc::Global;
use std::fmt::Write;
use std::str::from_utf8;
use std::test::Fail;

pub(crate) const ONE: &str = "PROGRAM ONE\nN = 2 + 3\nPRINT *, N + 1\nEND\n";

const HEADER: &str = "cdc 1\nscheme direct\nprocs 1\ncache 1 1 1\nbound 100\ntail rr\nevents\n";

const AT_ONCE: &str = "cdc 1\nscheme direct\nprocs 1\ncache 1 1 1\nbound 0\ntail rr\nevents\n";

const IN_LINE: &str = "cdc 1\nscheme direct\nprocs 1\ncache 1 1 1\nbound 09\ntail rr\nevents\n";

const LONGER: &str =
    "cdc 1\nscheme direct\nprocs 1\ncache 1 1 1\nbound 1000000000001\ntail rr\nevents\n";

const DONE: &str =
    "6\n= end done\n= boundaries 0\n= events 11 of 100\n= idle 0\n= p0 steps 10 reads 1 ordinary 0 marked 0 misses 1 evicted 0 invalidated 0\n";

const NOT_BEGUN: &str =
    "= end stopped\n= boundaries 0\n= events 0 of 0\n= idle 0\n= p0 steps 0 reads 0 ordinary 0 marked 0 misses 0 evicted 0 invalidated 0\n";

const HALF: &str =
    "6\n= end stopped\n= boundaries 0\n= events 9 of 9\n= idle 0\n= p0 steps 8 reads 1 ordinary 0 marked 0 misses 1 evicted 0 invalidated 0\n";

// A variable that nothing was stored into is 0, and each variable is read once.
const ZEROS: &str = "PROGRAM P2\nJ = K9 + 7\nPRINT *, J + L\nEND\n";

const ZEROS_DONE: &str =
    "7\n= end done\n= boundaries 0\n= events 11 of 100\n= idle 0\n= p0 steps 10 reads 3 ordinary 0 marked 0 misses 3 evicted 0 invalidated 0\n";

// The greatest numbers of the form.
const GREAT: &str = "PROGRAM G\nM = 999999999999999999 + 999999999999999999\nPRINT *, M + M\nEND\n";

const GREAT_DONE: &str =
    "3999999999999999996\n= end done\n= boundaries 0\n= events 11 of 100\n= idle 0\n= p0 steps 10 reads 2 ordinary 0 marked 0 misses 2 evicted 0 invalidated 0\n";

const OVER: &str =
    "PROGRAM AR\nPRINT *, MOD(-7, 3), -7 / 2, 7 / (-2), -2 * 3\nK = -9223372036854775807 - 1\nPRINT *, K\nPRINT *, ABS(K)\nEND\n";

const OVER_FAULT: &str =
    "-1 -3 -3 -6\n-9223372036854775808\n= end fault overflow at line 5\n= boundaries 0\n= events 35 of 100\n= idle 0\n= p0 steps 34 reads 2 ordinary 0 marked 0 misses 2 evicted 0 invalidated 0\n";

const TURNS: &str =
    "PROGRAM BIG\nDO K = 9223372036854775806, 9223372036854775807\nPRINT *, K\nEND DO\nEND\n";

const TURNS_FAULT: &str =
    "9223372036854775806\n9223372036854775807\n= end fault overflow at line 2\n= boundaries 0\n= events 20 of 100\n= idle 0\n= p0 steps 19 reads 4 ordinary 0 marked 0 misses 4 evicted 0 invalidated 0\n";

const READS: &str = "PROGRAM RD\nREAD *, I, J\nREAD *, K\nPRINT *, I, J, K\nREAD *, L\nEND\n";

const READS_FAULT: &str =
    "1 2 3\n= end fault input ended at line 5\n= boundaries 0\n= events 19 of 100\n= idle 0\n= p0 steps 18 reads 3 ordinary 0 marked 0 misses 3 evicted 0 invalidated 0\n";

const CROWDED: &str =
    "cdc 1\nscheme direct\nprocs 33\ncache 16 1024 8\nbound 100\ntail rr\nevents\n";

const UNFINISHED: &str = "cdc 1\nscheme direct\nprocs 1\ncache 1 1 1\nbound 100\ntail rr\n";

const BAD_EVENT: &str =
    "cdc 1\nscheme direct\nprocs 1\ncache 1 1 1\nbound 100\ntail rr\nevents\nnext 0 11\njump 0\n";

const CONFLICT: &str =
    "PROGRAM C\nINTEGER A(10)\nDOALL I = 1, 9\nA(I) = A(I + 1)\nEND DOALL\nEND\n";

// A DOALL without iterations has two boundaries.
const NO_TURNS: &str = "PROGRAM ZERO\nDOALL I = 5, 4\nEND DOALL\nPRINT *, 'x'\nEND\n";

const NO_TURNS_DONE: &str =
    "x\n= end done\n= boundaries 2\n= events 11 of 100\n= idle 0\n= p0 steps 7 reads 0 ordinary 0 marked 0 misses 0 evicted 0 invalidated 0\n";

// Iteration 3 faults before iteration 1 does; the least one is told, where its epoch is closed.
const LEAST: &str =
    "PROGRAM LEAST\nINTEGER A(4)\nPRINT *, 'a'\nDOALL I = 1, 4\nIF (I == 2) A(I + 9) = 1\nIF (I == 4) A(I) = 9223372036854775807 + I\nEND DOALL\nEND\n";

const TWO: &str =
    "cdc 1\nscheme direct\nprocs 2\ncache 1 1 1\nbound 1000\ntail rr\nevents\nnext 0 8\ntake 1 3\nstep 1 13\n";

const LEAST_FAULT: &str =
    "a\n= end fault subscript at line 5\n= boundaries 1\n= events 61 of 1000\n= idle 9\n= p0 steps 15 reads 0 ordinary 0 marked 0 misses 0 evicted 0 invalidated 0\n= p1 steps 30 reads 0 ordinary 0 marked 0 misses 0 evicted 0 invalidated 0\n";

const USAGE: &str =
    "usage: cdcc run PROG INPUT SCHED\n       cdcc check PROG\n       cdcc marks PROG\n       cdcc code PROG\n       cdcc seq PROG INPUT\n       cdcc bench N\n";

const PROGRAM_REFUSED: &str = "refused NotAStatement at line 1\n";

const INPUT_REFUSED: &str = "refused input at 1:1\n";

const SCHEDULE_REFUSED: &str = "refused header line 1\n";

const RUN: &str = "run,one.f,one.in,one.s";

pub(crate) const CHECK: &str = "check,one.f";

pub(crate) const CODE: &str = "code,one.f";

pub(crate) const MARKS: &str = "marks,one.f";

pub(crate) const MARKED: &str = "site 1 write N at 2:1\nsite 2 read N at 3:10 ordinary\n";

pub(crate) const LISTED: &str =
    "0 const 2\n1 const 3\n2 add\n3 store ONE.N site 1\n4 load ONE.N site 2 ordinary\n5 const 1\n6 add\n7 put\n8 line\n9 halt\n";

pub(crate) const ACCEPTED: &str = "accepted units 1 objects 1 words 1 sites 2 doalls 0\n";

const SEQ: &str = "seq,one.f,one.in";

const SIX: &str = "6\n= end done\n";

// The words of a line, with a comma between two.
pub(crate) fn split_words(alloc: Global, line: &str) -> Result<Vec<String>, Fail> {
    let mut list = Vec::new(alloc);
    for word in line.split(',') {
        list.push(String::from_str(alloc, word)?)?;
    }
    Ok(list)
}

fn files_of(alloc: Global, files: [&str; 3]) -> Result<Vec<(String, Vec<u8>)>, Fail> {
    let [program, input, schedule] = files;
    let mut list = Vec::new(alloc);
    for (name, text) in [("one.f", program), ("one.in", input), ("one.s", schedule)] {
        let name = String::from_str(alloc, name)?;
        list.push((name, text.as_bytes().to_vec(alloc)?))?;
    }
    Ok(list)
}

#[test]
fn files_are_answered(rt: HostRuntime) -> Result<(), Fail> {
    let words = split_words(rt.alloc(), RUN)?;
    for (files, status, text) in [
        ([ONE, "", HEADER], 0, DONE),
        ([ONE, "", AT_ONCE], 8, NOT_BEGUN),
        ([ONE, "", IN_LINE], 8, HALF),
        ([ZEROS, "", HEADER], 0, ZEROS_DONE),
        ([GREAT, "", HEADER], 0, GREAT_DONE),
        ([OVER, "", HEADER], 1, OVER_FAULT),
        ([TURNS, "", HEADER], 1, TURNS_FAULT),
        ([READS, "1\n2 99\n3, 4\n", HEADER], 1, READS_FAULT),
        (["", "x", ""], 3, "refused Nesting at line 1\n"),
        (
            ["PROGRAM ONE\nX = 2 + 3\nPRINT *, N + 1\nEND\n", "x", ""],
            3,
            "refused Undeclared at 2:1\n",
        ),
        (
            ["PROGRAM END\nN = 2 + 3\nPRINT *, N + 1\nEND\n", "", HEADER],
            3,
            PROGRAM_REFUSED,
        ),
        ([ONE, "x", ""], 4, INPUT_REFUSED),
        ([ONE, "1", ""], 4, SCHEDULE_REFUSED),
        ([ONE, "", ""], 4, SCHEDULE_REFUSED),
        ([ONE, "", LONGER], 4, "refused header line 5\n"),
        ([ONE, "", CROWDED], 4, "refused header line 4\n"),
        ([ONE, "", UNFINISHED], 4, "refused header line 7\n"),
        ([ONE, "", BAD_EVENT], 4, "6\n= bad event line 9\n"),
        ([NO_TURNS, "", HEADER], 0, NO_TURNS_DONE),
        ([LEAST, "", TWO], 1, LEAST_FAULT),
        ([CONFLICT, "x", ""], 3, "refused Conflict at 4:8 and 4:1\n"),
    ] {
        let files = files_of(rt.alloc(), files)?;
        let mut store = MemStore::new(rt.alloc(), files, Vec::new(rt.alloc()))?;
        let mut sink = MemSink::new(rt.alloc(), 1000, Vec::new(rt.alloc()))?;
        let got = run_tool(rt.alloc(), &words, &mut store, &mut sink);
        assert_eq!(rt; got, status, "{text}");
        assert_eq!(rt; sink.bytes(), text.as_bytes(), "{text}");
    }
    Ok(())
}

// Squares of three iterations, and their sum.
const SQUARES: &str =
    "PROGRAM Q\nINTEGER A(3)\nDOALL I = 1, 3\nA(I) = I * I\nEND DOALL\nPRINT *, A(1) + A(2) + A(3)\nEND\n";

// Whatever the processors do, the output is the sequential one.
#[test]
fn orders_of_events_give_one_output(rt: HostRuntime) -> Result<(), Fail> {
    let words = split_words(rt.alloc(), RUN)?;
    for events in [
        "tail rr\nevents\n",
        "tail random 1\nevents\n",
        "tail random 20261201\nevents\n",
        "tail rr\nevents\nnext 2 30\ntake 0 2\ntake 1 1\ntake 2 0\nstep 1 4\nstep 2 9\nstep 0 30\n",
        "tail rr\nevents\nnext 1 40\n",
        "tail rr\nevents\ntake 2 0\nstep 2 40\ntake 0 0\ntake 1 0\ntake 0 1\nevict 2 1\nstep 0\nstep 1\nstep 0\nstep 1\n",
    ] {
        let schedule = format!(in rt.alloc();
            "cdc 1\nscheme direct\nprocs 3\ncache 1 1 1\nbound 1000\n{events}"
        )?;
        let files = files_of(rt.alloc(), [SQUARES, "", schedule.as_str()])?;
        let mut store = MemStore::new(rt.alloc(), files, Vec::new(rt.alloc()))?;
        let mut sink = MemSink::new(rt.alloc(), 1000, Vec::new(rt.alloc()))?;
        let got = run_tool(rt.alloc(), &words, &mut store, &mut sink);
        assert_eq!(rt; got, 0, "{events}");
        assert!(rt;
            sink.bytes()
                .starts_with(b"14\n= end done\n= boundaries 2\n"),
            "{events}"
        );
    }
    Ok(())
}

pub(crate) fn one_file(alloc: Global, program: Vec<u8>) -> Result<Vec<(String, Vec<u8>)>, Fail> {
    let mut list = Vec::new(alloc);
    list.push((String::from_str(alloc, "one.f")?, program))?;
    Ok(list)
}

// A program of these lines between PROGRAM and END.
pub(crate) fn program_of(alloc: Global, between: &str) -> Result<Vec<u8>, Fail> {
    let source = format!(in alloc; "PROGRAM P\n{between}END\n")?;
    Ok(source.into_bytes())
}

// The cases of a table stand between lines of equals signs, and the parts of a case between lines of hyphens: the lines between
// PROGRAM and END, the input, and the status with what is printed.

// Programs with the lines of their input.
const PRINTED: &str = "PRINT *, MOD(-7, 3), -7 / 2, 7 / (-2), -2 * 3
K = -9223372036854775807 - 1
PRINT *, K
PRINT *, ABS(K)
--
--
1
-1 -3 -3 -6
-9223372036854775808
= end fault overflow at line 5
==
DO K = 9223372036854775806, 9223372036854775807
PRINT *, K
END DO
--
--
1
9223372036854775806
9223372036854775807
= end fault overflow at line 2
==
READ *, I, J
READ *, K
PRINT *, I, J, K
READ *, L
--
1
2 99
3, 4
--
1
1 2 3
= end fault input ended at line 5
==
READ *, I, J
READ *, K
PRINT *, I, J, K
READ *, L
--
1 ,, 2
--
4
refused input at 1:4
==
X = 1
--
x--
3
refused Undeclared at 2:1
==
N = 1
--
--
0
= end done
==
PRINT *
--
--
0

= end done
==
PRINT *, 'a b', 1, \"it's\", '', 'don''t'
--
--
0
a b 1 it's  don't
= end done
==
N = 3
PRINT *, -N * 2, 2 - N - 4, MIN(N, 1, 2), MAX(1, N, 2), ABS(-4)
--
--
0
-6 -5 1 3 4
= end done
==
INTEGER A(-1:1)
A(-1) = 5
A(1) = 6
PRINT *, A(-1), A(0), A(1)
--
--
0
5 0 6
= end done
";

// What is evaluated first faults first.
const FIRST_FAULTS: &str = "INTEGER A(2)
A(3) = 1 / 0
--
--
1
= end fault subscript at line 3
==
INTEGER A(2, 2)
A(3, 1 / 0) = 1
--
--
1
= end fault zero divisor at line 3
==
N = 9223372036854775807 + 1 + 1 / 0
--
--
1
= end fault overflow at line 2
==
N = MOD(1, 0) + (9223372036854775807 + 1)
--
--
1
= end fault zero divisor at line 2
==
IF (1 == 2 .AND. 1 / 0 == 1) N = 1
--
--
1
= end fault zero divisor at line 2
==
IF (1 == 1 .OR. 1 / 0 == 1) N = 1
--
--
1
= end fault zero divisor at line 2
==
IF (1 == 2) THEN
ELSE IF (1 / 0 == 1) THEN
END IF
--
--
1
= end fault zero divisor at line 3
==
IF (.NOT. 1 < 2 .OR. 2 >= 2 .AND. 1 /= 2) PRINT *, 'y'
N = 5
IF (N < 3) THEN
PRINT *, 'low'
ELSE IF (N < 6) THEN
PRINT *, 'mid'
ELSE
PRINT *, 'high'
END IF
--
--
0
y
mid
= end done
";

// Loops.
const LOOPS: &str = "DO K = 1, 2, 0
END DO
--
--
1
= end fault zero step at line 2
==
DO K = 2, 1
PRINT *, K
END DO
PRINT *, K
--
--
0
2
= end done
==
DO K = 3, 1, -1
PRINT *, K
END DO
DO K = 1, 6, 2
END DO
PRINT *, K
--
--
0
3
2
1
7
= end done
==
DO I = 1, 2
DO J = I, 2
PRINT *, I, J
END DO
END DO
PRINT *, I, J
--
--
0
1 1
1 2
2 2
3 3
= end done
==
N = 2
DO K = 1, N
N = 5
END DO
PRINT *, K, N
--
--
0
3 5
= end done
";

// DOALL.
const DOALLS: &str = "INTEGER A(4), B(4)
DOALL I = 1, 4
A(I) = A(I) + I
END DOALL
DOALL I = 1, 3
B(I) = A(I + 1)
END DOALL
PRINT *, B(1), B(2), B(3)
--
--
0
2 3 4
= end done
==
INTEGER A(4)
I = 8
J = 9
DOALL I = I - 4, J - 8, -1 PRIVATE(J)
A(I) = J
J = I
END DOALL
PRINT *, A(1), A(4), I, J
--
--
0
0 0 8 9
= end done
==
DOALL I = 1, 1048577
END DOALL
--
--
1
= end fault trip too large at line 2
==
DOALL I = 1, 2, 0
END DOALL
--
--
1
= end fault zero step at line 2
==
INTEGER A(4)
PRINT *, 'a'
DOALL I = 1, 4
IF (I == 2) A(I + 9) = 1
IF (I == 4) A(I) = 9223372036854775807 + I
END DOALL
--
--
1
a
= end fault subscript at line 5
";

// Records.
const RECORDS: &str = "READ *, I, J, K
PRINT *, K, J, I
READ *
READ *, I
PRINT *, I
--
1\r

2,
+03 4
5
 6--
0
3 2 1
6
= end done
==
INTEGER A(3)
READ *, I, A(I)
PRINT *, A(2), A(3)
--
2 9--
0
9 0
= end done
==
INTEGER A(2)
READ *, A(3)
--
--
1
= end fault subscript at line 3
==
READ *
--
--
1
= end fault input ended at line 2
";

// A fault within a line.
const WITHIN_A_LINE: &str = "PRINT *, 7, 1 / 0
--
--
1
7
= end fault zero divisor at line 2
==
PRINT *, 'a', '', 1 / 0
--
--
1
a 
= end fault zero divisor at line 2
==
PRINT *, 'a'
PRINT *, '', 1 / 0
--
--
1
a
= end fault zero divisor at line 3
==
PRINT *, '', 1 / 0
--
--
1
= end fault zero divisor at line 2
";

// The status in a line, and what is printed.
pub(crate) fn answered(alloc: Global, status: u8, sink: &MemSink) -> Result<String, Fail> {
    Ok(format!(in alloc; "{status}\n{}", from_utf8(sink.bytes())?)?)
}

// What `seq` answers for a program of these lines and an input.
fn carried_out(alloc: Global, between: &str, input: &str) -> Result<String, Fail> {
    let words = split_words(alloc, SEQ)?;
    let mut files = one_file(alloc, program_of(alloc, between)?)?;
    files.push((
        String::from_str(alloc, "one.in")?,
        input.as_bytes().to_vec(alloc)?,
    ))?;
    let mut store = PlainStore::new(files);
    let mut sink = MemSink::new(alloc, 1000, Vec::new(alloc))?;
    let status = run_tool(alloc, &words, &mut store, &mut sink);
    answered(alloc, status, &sink)
}

#[test]
fn programs_are_carried_out(rt: HostRuntime) -> Result<(), Fail> {
    for cases in [PRINTED, FIRST_FAULTS, LOOPS, DOALLS, RECORDS, WITHIN_A_LINE] {
        for case in cases.split("==\n") {
            let (between, rest) = case.split_once("--\n").unwrap_or((case, ""));
            let (input, want) = rest.split_once("--\n").unwrap_or((rest, ""));
            let got = carried_out(rt.alloc(), between, input)?;
            assert_eq!(rt; got.as_str(), want, "{between}");
        }
    }
    Ok(())
}

#[test]
fn an_input_has_its_limit(rt: HostRuntime) -> Result<(), Fail> {
    let words = split_words(rt.alloc(), SEQ)?;
    for (length, status, text) in [
        (1048576, 0, SIX),
        (1048577, 4, "refused input over 1048576 bytes\n"),
    ] {
        let mut files = one_file(rt.alloc(), ONE.as_bytes().to_vec(rt.alloc())?)?;
        let mut input = Vec::new(rt.alloc());
        input.resize(length, b' ')?;
        files.push((String::from_str(rt.alloc(), "one.in")?, input))?;
        let mut store = PlainStore::new(files);
        let mut sink = MemSink::new(rt.alloc(), 1000, Vec::new(rt.alloc()))?;
        let got = run_tool(rt.alloc(), &words, &mut store, &mut sink);
        assert_eq!(rt; got, status, "{text}");
        assert_eq!(rt; sink.bytes(), text.as_bytes(), "{text}");
    }
    Ok(())
}

#[test]
fn other_words_are_told_the_usage(rt: HostRuntime) -> Result<(), Fail> {
    let mut lists = vec![in rt.alloc(); Vec::new(rt.alloc())]?;
    for line in [
        "run,a,b",
        "run,-x,b,c",
        "run,a,,c",
        "runs,a,b,c",
        "check",
        "check,a,b",
        "check,-x",
        "checks,a",
        "seq",
        "seq,a",
        "seq,-x,b",
        "seq,a,",
        "seqs,a,b",
        "seq,a,b,c",
        "run,a",
        "marks",
        "marks,-x",
        "bench,0",
        "bench,1001",
    ] {
        lists.push(split_words(rt.alloc(), line)?)?;
    }
    for words in &lists {
        let mut store = PlainStore::new(Vec::new(rt.alloc()));
        let mut sink = MemSink::new(rt.alloc(), 1000, Vec::new(rt.alloc()))?;
        assert_eq!(rt; run_tool(rt.alloc(), words, &mut store, &mut sink), 2);
        assert_eq!(rt; sink.bytes(), USAGE.as_bytes());
    }
    Ok(())
}

#[test]
fn faults_end_the_call(rt: HostRuntime) -> Result<(), Fail> {
    // The words, the calls of the store and of the sink that fail, the room of the sink, the status and the whole answer.
    for (line, store_fails, sink_fails, room, status, whole) in [
        (RUN, 2, 0, 1000, 5, DONE),
        (RUN, 0, 1, 1000, 6, DONE),
        (RUN, 0, 3, 1000, 6, DONE),
        (RUN, 0, 0, 20, 6, DONE),
        (CHECK, 1, 0, 1000, 5, ACCEPTED),
        (CHECK, 0, 1, 1000, 6, ACCEPTED),
        (CHECK, 0, 2, 1000, 6, ACCEPTED),
        (MARKS, 1, 0, 1000, 5, MARKED),
        (MARKS, 0, 1, 1000, 6, MARKED),
        (MARKS, 0, 0, 20, 6, MARKED),
        (CODE, 1, 0, 1000, 5, LISTED),
        (CODE, 0, 1, 1000, 6, LISTED),
        (CODE, 0, 0, 20, 6, LISTED),
        (SEQ, 1, 0, 1000, 5, SIX),
        (SEQ, 3, 0, 1000, 5, SIX),
        (SEQ, 0, 1, 1000, 6, SIX),
        (SEQ, 0, 2, 1000, 6, SIX),
        (SEQ, 0, 0, 3, 6, SIX),
    ] {
        let words = split_words(rt.alloc(), line)?;
        let files = files_of(rt.alloc(), [ONE, "", HEADER])?;
        let mut store = MemStore::new(rt.alloc(), files, vec![in rt.alloc(); store_fails]?)?;
        let mut sink = MemSink::new(rt.alloc(), room, vec![in rt.alloc(); sink_fails]?)?;
        assert_eq!(rt; run_tool(rt.alloc(), &words, &mut store, &mut sink), status);
        let taken = sink.bytes();
        assert!(rt; whole.as_bytes().starts_with(taken) && taken.len() < whole.len());
        assert!(rt; status == 6 && sink_fails != 1 || taken.is_empty());
    }
    let words = split_words(rt.alloc(), RUN)?;
    let mut store = MemStore::new(rt.alloc(), Vec::new(rt.alloc()), Vec::new(rt.alloc()))?;
    let mut sink = MemSink::new(rt.alloc(), 1000, Vec::new(rt.alloc()))?;
    assert_eq!(rt; run_tool(rt.alloc(), &words, &mut store, &mut sink), 5);
    assert!(rt; sink.bytes().is_empty());
    Ok(())
}

#[test]
fn a_counting_sink_counts_the_printed_bytes(rt: HostRuntime) -> Result<(), Fail> {
    let words = split_words(rt.alloc(), RUN)?;
    let mut store = PlainStore::new(files_of(rt.alloc(), [ONE, "", HEADER])?);
    let mut sink = CountSink::new();
    assert_eq!(rt; run_tool(rt.alloc(), &words, &mut store, &mut sink), 0);
    assert_eq!(rt; sink.count(), DONE.len() as u64);
    Ok(())
}
