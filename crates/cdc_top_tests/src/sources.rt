//! The commands over a source alone: `check`, `marks` and `code`.

use crate::commands::{
    ACCEPTED, CHECK, CODE, LISTED, MARKED, MARKS, ONE, answered, one_file, program_of, split_words,
};
use cdc_base::{MemSink, PlainStore};
use cdc_top::run_tool;
use std::alloc::Global;
use std::fmt::Write;
use std::test::Fail;

const SHARE: &str =
    "PROGRAM SHARE\nINTEGER A(4), B(4)\nDOALL I = 1, 4\nA(I) = A(I) + I\nEND DOALL\nDOALL I = 1, 3\nB(I) = A(I + 1)\nEND DOALL\nPRINT *, B(1), B(2), B(3)\nEND\n";

const SHARE_MARKS: &str =
    "site 1 read A at 4:8 ordinary\nsite 2 write A at 4:1\nsite 3 read A at 7:8 time 2\nsite 4 write B at 7:1\nsite 5 read B at 9:10 time 1\nsite 6 read B at 9:16 time 1\nsite 7 read B at 9:22 time 1\ndoall 1 line 3 entry writes none\ndoall 1 line 3 exit writes SHARE.A\ndoall 2 line 6 entry writes none\ndoall 2 line 6 exit writes SHARE.B\n";

const FAR: &str =
    "PROGRAM FAR\nINTEGER A(4)\nDOALL I = 1, 4\nA(I) = I\nEND DOALL\nDO K = 1, 2\nIF (K == 2) PRINT *, A(10000000*K - 19999999)\nEND DO\nEND\n";

const FAR_MARKS: &str =
    "site 1 write A at 4:1\nsite 2 write K at 6:4\nsite 3 read K at 7:5 ordinary\nsite 4 read K at 7:33 ordinary\nsite 5 read A at 7:22 time 1\nsite 6 read K at 6:4 ordinary\nsite 7 write K at 6:4\ndoall 1 line 3 entry writes none\ndoall 1 line 3 exit writes FAR.A\n";

// Each refusal once; then two at once, of which the first kind is told; then further places of a kind, and accepted lines. Behind
// the lines between PROGRAM and END stand the status and what is printed.
const CHECKED: &str = "N = 1 # 2
--
3
refused BadByte at 2:7
==
PRINT *, 'ab
--
3
refused OpenText at 2:10
==
NNNNNNNNNNNNNNNNNNNNNNNNNNNNNNNN = 1
--
3
refused NameLong at 2:1
==
N = 9223372036854775808
--
3
refused NumberWide at 2:5
==
!cccccccccccccccccccccccccccccccccccccccccccccccccccccccccccccccccccccccccccccccccccccccccccccccccccccccccccccccccccccccccccccccccccc
--
3
refused LineLong at 2:133
==
N == 1
--
3
refused NotAStatement at line 2
==
N = (((((((((((((((((((((((((((((((((((((((((((((((((((((((((((((((((1)))))))))))))))))))))))))))))))))))))))))))))))))))))))))))))))))
--
3
refused LineLong at 2:133
==
N = (((((((((((((((((((((((((((((((((((((((((((((((((((((((((((((((((1 &
)))))))))))))))))))))))))))))))))))))))))))))))))))))))))))))))))
--
3
refused Depth at line 2
==
END DO
--
3
refused Nesting at line 2
==
X = 1
--
3
refused Undeclared at 2:1
==
INTEGER A, A
--
3
refused Duplicate at 2:9 and 2:12
==
INTEGER A(N)
--
3
refused NotConstant at 2:11
==
INTEGER A(2)
A = 1
--
3
refused Shape at 3:1
==
DO K = 1, 2
K = 3
END DO
--
3
refused DoVariable at 3:1
==
INTEGER A(2097152), B(2097153)
--
3
refused TooMany words limit 4194304
==
DOALL K = 1, 2
PRINT *, K
END DOALL
--
3
refused DoallBody at 3:1
==
DOALL K = 1, 2
N = K
END DOALL
--
3
refused NotPrivate at 3:1
==
INTEGER A(10)
DOALL I = 1, 9
A(I) = A(I + 1)
END DOALL
--
3
refused Conflict at 4:8 and 4:1
==
N = 1
IF (N == 1) CALL Q
--
3
refused NotAStatement at line 3
==
DOALL K = 1, 2
IF (K == 1) PRINT *, K
END DOALL
--
3
refused DoallBody at 3:13
==
DOALL K = 1, 2
DOALL J = 1, 2
END DOALL
END DOALL
--
3
refused DoallBody at 3:1
==
DOALL K = 1, 2 PRIVATE(J)
DO L = 1, 2
END DO
END DOALL
--
3
refused NotPrivate at 3:4
==
DOALL K = 1, 2
K = 3
END DOALL
--
3
refused NotPrivate at 3:1
==
DOALL K = 1, 2 PRIVATE(K)
END DOALL
--
3
refused Duplicate at 2:7 and 2:24
==
INTEGER A, A
X = 1
--
3
refused Undeclared at 3:1
==
INTEGER A(N), B, B
--
3
refused Duplicate at 2:15 and 2:18
==
INTEGER A(2), B(N)
A = 1
--
3
refused NotConstant at 2:17
==
INTEGER A(2)
DO K = 1, 2
K = 3
END DO
A = 1
--
3
refused Shape at 6:1
==
INTEGER A(4194305)
DO K = 1, 2
K = 3
END DO
--
3
refused DoVariable at 4:1
==
INTEGER A, B, A, B, A
--
3
refused Duplicate at 2:9 and 2:15
==
IMPLICIT NONE
INTEGER A(K), B(X)
--
3
refused Undeclared at 3:11
==
INTEGER, PARAMETER :: P = 1, Q = P + R
--
3
refused Undeclared at 2:38
==
INTEGER, PARAMETER :: P = 1 / 0
--
3
refused NotConstant at 2:27
==
INTEGER, PARAMETER :: P = 9223372036854775807 + 1
--
3
refused NotConstant at 2:27
==
INTEGER A(P)
INTEGER, PARAMETER :: P = 2
--
3
refused NotConstant at 2:11
==
INTEGER A(1, 2, 3, 4)
--
3
refused Shape at 2:9
==
INTEGER A(2:1)
--
3
refused Shape at 2:9
==
INTEGER A(2, 3)
A(1) = 1
--
3
refused Shape at 3:1
==
N(1) = 1
--
3
refused Shape at 2:1
==
INTEGER, PARAMETER :: P = 2
P = 1
--
3
refused Shape at 3:1
==
INTEGER A(3)
DO A = 1, 2
END DO
--
3
refused Shape at 3:4
==
DO K = 1, 2
DO J = 1, 2
READ *, L, K
END DO
END DO
--
3
refused DoVariable at 4:12
==
DO K = 1, 2
DO K = 1, 2
END DO
END DO
--
3
refused DoVariable at 3:4
==
INTEGER A(2097152), B(2097152)
--
0
accepted units 1 objects 2 words 4194304 sites 0 doalls 0
==
INTEGER A(1:1)
A(1) = A(1)
--
0
accepted units 1 objects 1 words 1 sites 2 doalls 0
==
DO K = 1, 2
END DO
K = 1
--
0
accepted units 1 objects 1 words 1 sites 4 doalls 0
==
INTEGER A(19)
DOALL I = 1, 9
A(2*I) = A(2*I + 1)
END DOALL
--
0
accepted units 1 objects 2 words 20 sites 2 doalls 1
==
INTEGER A(10:129)
DOALL I = 1, 10 PRIVATE(J)
DO J = 0, 9
A(10*I + J) = I
END DO
END DOALL
--
0
accepted units 1 objects 3 words 122 sites 1 doalls 1
==
INTEGER, PARAMETER :: P = MOD(-7, 3), Q = -7 / 2, R = MIN(5, 4, 6)
INTEGER A(P:Q + 3), B(R)
--
0
accepted units 1 objects 2 words 6 sites 0 doalls 0
";

#[test]
fn programs_are_checked(rt: HostRuntime) -> Result<(), Fail> {
    let words = split_words(rt.alloc(), CHECK)?;
    for case in CHECKED.split("==\n") {
        let (between, want) = case.split_once("--\n").unwrap_or((case, ""));
        let program = program_of(rt.alloc(), between)?;
        let mut store = PlainStore::new(one_file(rt.alloc(), program)?);
        let mut sink = MemSink::new(rt.alloc(), 1000, Vec::new(rt.alloc()))?;
        let got = run_tool(rt.alloc(), &words, &mut store, &mut sink);
        assert_eq!(rt;
            answered(rt.alloc(), got, &sink)?.as_str(),
            want,
            "{between}"
        );
    }
    Ok(())
}

// A program of so many assignments, to one variable or to as many.
fn assignments(alloc: Global, count: u32, to_one: bool) -> Result<Vec<u8>, Fail> {
    let mut source = String::from_str(alloc, "PROGRAM P\n")?;
    for k in 0..count {
        if to_one {
            source.push_str("N=1\n")?;
        } else {
            write!(source, "N{k}=1\n")?;
        }
    }
    source.push_str("END\n")?;
    Ok(source.into_bytes())
}

#[test]
fn programs_have_limits(rt: HostRuntime) -> Result<(), Fail> {
    let words = split_words(rt.alloc(), CHECK)?;
    for (count, to_one, status, text) in [
        (
            16384,
            true,
            0,
            "accepted units 1 objects 1 words 1 sites 16384 doalls 0\n",
        ),
        (16385, true, 3, "refused TooMany sites limit 16384\n"),
        (
            1024,
            false,
            0,
            "accepted units 1 objects 1024 words 1024 sites 1024 doalls 0\n",
        ),
        (1025, false, 3, "refused TooMany objects limit 1024\n"),
    ] {
        let program = assignments(rt.alloc(), count, to_one)?;
        let mut store = PlainStore::new(one_file(rt.alloc(), program)?);
        let mut sink = MemSink::new(rt.alloc(), 1000, Vec::new(rt.alloc()))?;
        let got = run_tool(rt.alloc(), &words, &mut store, &mut sink);
        assert_eq!(rt; got, status, "{text}");
        assert_eq!(rt; sink.bytes(), text.as_bytes(), "{text}");
    }
    Ok(())
}

#[test]
fn a_program_has_its_limit(rt: HostRuntime) -> Result<(), Fail> {
    let words = split_words(rt.alloc(), CHECK)?;
    for (length, status, text) in [
        (0, 3, "refused Nesting at line 1\n"),
        (262144, 0, ACCEPTED),
        (262145, 3, "refused TooMany source limit 262144\n"),
    ] {
        let mut program = ONE.as_bytes().to_vec(rt.alloc())?;
        program.resize(length, b'\n')?;
        let mut store = PlainStore::new(one_file(rt.alloc(), program)?);
        let mut sink = MemSink::new(rt.alloc(), 1000, Vec::new(rt.alloc()))?;
        let got = run_tool(rt.alloc(), &words, &mut store, &mut sink);
        assert_eq!(rt; got, status, "{text}");
        assert_eq!(rt; sink.bytes(), text.as_bytes(), "{text}");
    }
    Ok(())
}

// Programs, each with its listing or its marks: an arm, a DO and a DOALL; words that share a line of a cache; a step over an
// array's extent; and a sweep over two grids.
#[test]
fn code_and_marks_are_written(rt: HostRuntime) -> Result<(), Fail> {
    for (line, program, status, text) in [
        (CODE, ONE, 0, LISTED),
        (MARKS, ONE, 0, MARKED),
        (
            CODE,
            "PROGRAM P\nX = 1\nEND\n",
            3,
            "refused Undeclared at 2:1\n",
        ),
        (
            MARKS,
            "PROGRAM P\nX = 1\nEND\n",
            3,
            "refused Undeclared at 2:1\n",
        ),
        (
            CODE,
            "PROGRAM L\nINTEGER A(2)\nDO K = 2, 1, -1\nPRINT *, 'a', A(K)\nEND DO\nDOALL I = 1, 2 PRIVATE(J)\nJ = I\nEND DOALL\nEND\n",
            0,
            "0 const 2\n1 const 1\n2 const 1\n3 neg\n4 doinit\n5 store L.K site 1\n6 dotest 12\n7 text 0\n8 load L.K site 2 ordinary\n9 index L.A\n10 loade L.A site 3 ordinary\n11 gap\n12 put\n13 line\n14 load L.K site 4 ordinary\n15 doadd\n16 store L.K site 5\n17 jump -11\n18 const 1\n19 const 2\n20 const 1\n21 fork 1 4\n22 local 0\n23 setlocal 1\n24 join\n25 halt\n",
        ),
        (MARKS, SHARE, 0, SHARE_MARKS),
        (MARKS, FAR, 0, FAR_MARKS),
    ] {
        let words = split_words(rt.alloc(), line)?;
        let mut store = PlainStore::new(one_file(
            rt.alloc(),
            program.as_bytes().to_vec(rt.alloc())?,
        )?);
        let mut sink = MemSink::new(rt.alloc(), 1000, Vec::new(rt.alloc()))?;
        let got = run_tool(rt.alloc(), &words, &mut store, &mut sink);
        assert_eq!(rt; got, status, "{text}");
        assert_eq!(rt; sink.bytes(), text.as_bytes(), "{text}");
    }
    Ok(())
}
