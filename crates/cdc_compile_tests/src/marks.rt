//! Sources, each with the marks of its sites in order behind a line of hyphens, 0 for a store and for an ordinary read: each
//! edge of the flow graph, each kind of section and each rule of covers, on both sides of its border.

use crate::forms::repeated;
use cdc_compile::compile;
use cdc_prog::Mark;
use std::alloc::Global;
use std::fmt::Write;
use std::test::Fail;

/// A write counts behind a boundary, and over one at least; controls stand before the entry, and a body behind it.
const BOUNDARIES: &str = "PROGRAM P
N = 1
DOALL I = 1, 2
END DOALL
PRINT *, N
END
--
 0 0
==
PROGRAM P
DOALL I = 1, 2
END DOALL
N = 1
DOALL I = 1, 2
END DOALL
PRINT *, N
END
--
 0 2
==
PROGRAM P
DOALL I = 1, 2
END DOALL
N = 1
PRINT *, N
END
--
 0 0
==
PROGRAM P
INTEGER A(2)
DOALL I = 1, 2
END DOALL
N = 2
DOALL I = 1, N
A(I) = N
END DOALL
END
--
 0 0 1 0
==
PROGRAM P
INTEGER A(2)
DOALL I = 1, 2
A(I) = A(I) + I
END DOALL
END
--
 0 0
==
PROGRAM P
INTEGER A(2)
DO K = 1, 2
DOALL I = 1, 2
A(I) = A(I) + I
END DOALL
END DO
END
--
 0 2 0 2 0
";

/// Each arm is open, a condition is not asked, and a loop makes any number of turns, none among them.
const BRANCHES: &str = "PROGRAM P
INTEGER A(2)
DOALL I = 1, 2
A(I) = I
END DOALL
IF (N == 0) THEN
DOALL I = 1, 2
END DOALL
END IF
PRINT *, A(1)
END
--
 0 0 1
==
PROGRAM P
INTEGER A(2)
DOALL I = 1, 2
A(I) = I
END DOALL
IF (N == 0) THEN
DOALL I = 1, 2
END DOALL
ELSE
DOALL I = 1, 2
END DOALL
END IF
PRINT *, A(1)
END
--
 0 0 3
==
PROGRAM P
INTEGER A(2)
DOALL I = 1, 2
A(I) = I
END DOALL
IF (1 == 1) THEN
DOALL I = 1, 2
END DOALL
END IF
PRINT *, A(1)
END
--
 0 1
==
PROGRAM P
INTEGER A(2)
DOALL I = 1, 2
END DOALL
IF (N == 0) THEN
A(1) = 1
DOALL I = 1, 2
END DOALL
ELSE
PRINT *, A(1)
END IF
END
--
 0 0 0
==
PROGRAM P
INTEGER A(2)
DOALL I = 1, 2
END DOALL
DO K = 1, 2
IF (N == 0) THEN
A(1) = 1
DOALL I = 1, 2
END DOALL
ELSE
PRINT *, A(1)
END IF
END DO
END
--
 0 0 0 2 2 0
==
PROGRAM P
INTEGER A(2)
DOALL I = 1, 2
A(I) = I
END DOALL
DO K = 1, 2
DOALL I = 1, 2
END DOALL
END DO
PRINT *, A(1)
END
--
 0 0 2 0 1
";

/// Sections overlap where in each dimension a position is in both; a subscript of which nothing is known may have any.
const SECTIONS: &str = "PROGRAM P
INTEGER A(8)
DOALL I = 1, 3
A(2*I) = I
END DOALL
PRINT *, A(3), A(4)
END
--
 0 0 1
==
PROGRAM P
INTEGER A(2, 4)
DOALL I = 1, 4
A(1, I) = I
END DOALL
PRINT *, A(2, 3), A(1, 3)
END
--
 0 0 1
==
PROGRAM P
INTEGER A(8)
DOALL I = 1, 4
A(I) = I
END DOALL
PRINT *, A(N)
END
--
 0 0 1
==
PROGRAM P
INTEGER A(8)
DOALL I = 1, 4
A(I) = I
END DOALL
DO K = 5, 8
PRINT *, A(K)
END DO
END
--
 0 0 0 0 0 0
==
PROGRAM P
INTEGER A(8)
DOALL I = 1, 4
A(I) = I
END DOALL
DO K = 4, 8
PRINT *, A(K)
END DO
END
--
 0 0 0 1 0 0
";

/// A cover is an access by equal subscripts in the same list of statements, with none of their scalars stored in between.
const COVERS: &str = "PROGRAM P
INTEGER A(2)
DOALL I = 1, 2
A(I) = I
END DOALL
PRINT *, A(1), A(1), A(2)
END
--
 0 1 0 1
==
PROGRAM P
INTEGER A(2)
DOALL I = 1, 2
A(I) = I
END DOALL
PRINT *, A(K)
K = 1
PRINT *, A(K)
END
--
 0 0 1 0 0 1
==
PROGRAM P
INTEGER A(2)
DOALL I = 1, 2
A(I) = I
END DOALL
PRINT *, A(K)
J = 1
PRINT *, A(K)
END
--
 0 0 1 0 0 0
==
PROGRAM P
INTEGER A(2)
DOALL I = 1, 2
A(I) = I
END DOALL
PRINT *, A(1)
DO K = 1, 1
PRINT *, A(1)
END DO
END
--
 0 1 0 1 0 0
==
PROGRAM P
INTEGER A(2)
DOALL I = 1, 2
A(I) = I
END DOALL
A(1) = A(1) + 1
PRINT *, A(1)
END
--
 0 1 0 0
==
PROGRAM P
INTEGER A(2)
DOALL I = 1, 2
A(I) = 1
END DOALL
PRINT *, A(A(1)), A(A(1))
END
--
 0 1 1 0 1
";

fn distance(mark: Mark) -> u8 {
    match mark {
        Mark::Ordinary => 0,
        Mark::Time(d) => d,
    }
}

fn write_marks(text: &mut String, marks: &[Mark]) -> Result<(), Fail> {
    for mark in marks {
        write!(text, " {}", distance(*mark))?;
    }
    text.push('\n')?;
    Ok(())
}

/// The marks of a source, as numbers in a line, each behind a blank.
fn distances(alloc: Global, source: &str) -> Result<String, Fail> {
    let mut text = String::new(alloc);
    match compile(alloc, source.as_bytes()) {
        Ok(compiled) => write_marks(&mut text, compiled.marks.reads.as_slice())?,
        Err(_) => text.push_str("refused")?,
    }
    Ok(text)
}

#[test]
fn a_source_has_its_marks(rt: HostRuntime) -> Result<(), Fail> {
    for cases in [BOUNDARIES, BRANCHES, SECTIONS, COVERS] {
        for case in cases.split("==\n") {
            let (source, want) = case.split_once("--\n").unwrap_or((case, ""));
            assert_eq!(rt; distances(rt.alloc(), source)?.as_str(), want, "{source}");
        }
    }
    Ok(())
}

/// So many DOALLs between a store and a read: each has two boundaries, and the exit of the first is one more.
#[test]
fn a_mark_is_at_most_255(rt: HostRuntime) -> Result<(), Fail> {
    let head = "PROGRAM P\nINTEGER A(2)\nDOALL I = 1, 2\nA(I) = I\nEND DOALL\n";
    let tail = "PRINT *, A(1)\nEND\n";
    for (count, want) in [(126, 253), (127, 255), (128, 255)] {
        let source = repeated(rt.alloc(), head, count, "DOALL I = 1, 2\nEND DOALL\n", tail)?;
        let want = format!(in rt.alloc(); " 0 {want}\n")?;
        assert_eq!(rt;
            distances(rt.alloc(), source.as_str())?.as_str(),
            want.as_str()
        );
    }
    Ok(())
}
