//! Whole sources for the statement forms, nesting and depth: what is a statement, and on which line one is refused.

use crate::answers::write_answer;
use cdc_base::MemSink;
use std::alloc::Global;
use std::test::Fail;

/// No object, no access.
const BARE: &str = "1 0 0 0 0\n";

const NO_STATEMENT: &str = "refused NotAStatement at line 2\n";

/// Lines of a program that are no statements.
const NO_STATEMENTS: &str = "N = - - 1
N = 2 * -1
N = 1 < 2
N = (1 < 2)
N = MOD(1)
N = ABS(1, 2)
N = MIN(1)
N = A()
N = ABS
N = 'A'
IF (1) THEN
IF (1 < 2 < 3) THEN
IF (.NOT. .NOT. 1 < 2) N = 1
IF (1 < .NOT. 2 < 3) N = 1
IF (1 < 2) IF (1 < 2) N = 1
IF = 1
PRINT *, 1 < 2
PRINT 1
READ *, 1
INTEGER A(1::2)
";

/// Sources, each with what is answered behind a line of hyphens.
const SOURCES: &str = "PROGRAM P
END PROGRAM P
--
1 0 0 0 0
==
PROGRAM P
END PROGRAM
--
1 0 0 0 0
==
PROGRAM P
PRINT *, -1 - 2, +2*3, (1 + 2)*3, MIN(1, 2, 3) - ABS(-1), MOD(7, 2), 'a''b'
END
--
1 0 0 0 0
==
PROGRAM P
IF ((1) < (2)) PRINT *
IF ((1 < 2)) READ *
IF (.NOT. (1 < 2 .OR. 1 > 2) .AND. .NOT. 1 + 1 == 3) PRINT *
END
--
1 0 0 0 0
==
PROGRAM P
IMPLICIT NONE
INTEGER :: I, A(0:1)
DO I = 0, 1, 1
IF (I < 1) THEN
ELSE IF (I < 2) THEN
A(I) = 1
ELSEIF (I < 3) THEN
ELSE
END IF
ENDDO
END
--
1 2 3 8 0
==
PROGRAM P
--
refused Nesting at line 1
==
N = 1
--
refused Nesting at line 1
==
PROGRAM P
END PROGRAM Q
--
refused Nesting at line 2
==
PROGRAM P
END SUBROUTINE P
--
refused Nesting at line 2
==
SUBROUTINE S
END PROGRAM S
PROGRAM P
END
--
refused Nesting at line 2
==
SUBROUTINE S
END
--
refused Nesting at line 2
==
PROGRAM P
END
PROGRAM Q
END
--
refused Nesting at line 3
==
PROGRAM P
IMPLICIT NONE
IMPLICIT NONE
END
--
refused Nesting at line 3
==
PROGRAM P
INTEGER A
IMPLICIT NONE
END
--
refused Nesting at line 3
==
PROGRAM P
N = 1
IMPLICIT NONE
END
--
refused Nesting at line 3
==
PROGRAM P
N = 1
INTEGER A
END
--
refused Nesting at line 3
==
PROGRAM P
IF (1 < 2) THEN
INTEGER A
END IF
END
--
refused Nesting at line 3
==
PROGRAM P
IF (1 < 2) THEN
ELSE
ELSE
END IF
END
--
refused Nesting at line 4
==
PROGRAM P
IF (1 < 2) THEN
ELSE
ELSE IF (1 < 2) THEN
END IF
END
--
refused Nesting at line 4
==
PROGRAM P
DO K = 1, 2
END DOALL
END
--
refused Nesting at line 3
==
PROGRAM P
DO K = 1, 2
END IF
END
--
refused Nesting at line 3
==
PROGRAM P
IF (1 < 2) THEN
DO K = 1, 2
ELSE
END DO
END IF
END
--
refused Nesting at line 4
==
PROGRAM P
DO K = 1, 2
END
--
refused Nesting at line 3
==
PROGRAM P; DO K = 1, 2; END; END DO
--
refused Nesting at line 1
";

/// What is answered for a source, at most 100 bytes.
fn answer(alloc: Global, source: &str) -> Result<MemSink, Fail> {
    let mut sink = MemSink::new(alloc, 100, Vec::new(alloc))?;
    write_answer(alloc, source.as_bytes(), &mut sink)?;
    Ok(sink)
}

/// A source of some pieces between a head and a tail.
pub(crate) fn repeated(
    alloc: Global,
    head: &str,
    count: u32,
    piece: &str,
    tail: &str,
) -> Result<String, Fail> {
    let mut text = String::new(alloc);
    text.push_str(head)?;
    for _ in 0..count {
        text.push_str(piece)?;
    }
    text.push_str(tail)?;
    Ok(text)
}

#[test]
fn forms_are_answered(rt: HostRuntime) -> Result<(), Fail> {
    for line in NO_STATEMENTS.lines() {
        let source = format!(in rt.alloc(); "PROGRAM P\n{line}\nEND\n")?;
        let sink = answer(rt.alloc(), source.as_str())?;
        assert_eq!(rt; sink.bytes(), NO_STATEMENT.as_bytes(), "{line}");
    }
    for case in SOURCES.split("==\n") {
        let (source, want) = case.split_once("--\n").unwrap_or((case, ""));
        let sink = answer(rt.alloc(), source)?;
        assert_eq!(rt; sink.bytes(), want.as_bytes(), "{source}");
    }
    Ok(())
}

/// Parentheses one to a physical line, and blocks, at a limit of 64 and over it.
#[test]
fn depth_has_its_limits(rt: HostRuntime) -> Result<(), Fail> {
    let alloc = rt.alloc();
    for (open, head, piece, middle, close, tail, want) in [
        (
            64,
            "PROGRAM P\nN = &\n",
            "(&\n",
            "1&\n",
            ")&\n",
            "+ 1\nEND\n",
            "1 1 1 1 0\n",
        ),
        (
            65,
            "PROGRAM P\nN = &\n",
            "(&\n",
            "1&\n",
            ")&\n",
            "+ 1\nEND\n",
            "refused Depth at line 2\n",
        ),
        (
            64,
            "PROGRAM P\nN = 1) &\n",
            "(&\n",
            "1&\n",
            ")&\n",
            "+ 1\nEND\n",
            NO_STATEMENT,
        ),
        (
            64,
            "PROGRAM P\n",
            "IF (1 < 2) THEN\n",
            "",
            "END IF\n",
            "END\n",
            BARE,
        ),
        (
            65,
            "PROGRAM P\n",
            "IF (1 < 2) THEN\n",
            "",
            "END IF\n",
            "END\n",
            "refused Depth at line 66\n",
        ),
        (
            65,
            "PROGRAM P\n",
            "IF (1 < 2) THEN\n",
            "",
            "END IF\n",
            "END DO\nEND\n",
            "refused Depth at line 66\n",
        ),
        (
            64,
            "PROGRAM P\n",
            "IF (1 < 2) THEN\n",
            "IF (1 < 2) THEN; END\n",
            "END IF\n",
            "END IF\nEND\n",
            "refused Nesting at line 66\n",
        ),
    ] {
        let before = repeated(alloc, head, open, piece, middle)?;
        let source = repeated(alloc, before.as_str(), open, close, tail)?;
        let sink = answer(alloc, source.as_str())?;
        assert_eq!(rt; sink.bytes(), want.as_bytes(), "{source}");
    }
    Ok(())
}
