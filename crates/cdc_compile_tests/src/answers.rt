//! What no clause says: that calls succeed where memory is there, and the printed texts.

use cdc_base::{MemSink, Place, SinkFault};
use cdc_compile::{Refusal, program, write_refusal};
use cdc_prog::Program;
use cdc_text::{Text, write_texts, write_words};
use cdc_token::LexRefusal;
use std::alloc::Global;
use std::test::Fail;

const ONE: &str = "PROGRAM ONE\nN = 2 + 3\nPRINT *, N + 1\nEND\n";

// The numbers of units, objects, words, sites and DOALL loops.
fn write_numbers(program: &Program, out: &mut MemSink) -> Result<(), SinkFault> {
    let texts = [
        Text::Number(program.units.as_slice().len() as u64),
        Text::Words(b" "),
        Text::Number(program.objects.as_slice().len() as u64),
        Text::Words(b" "),
        Text::Number(program.words as u64),
        Text::Words(b" "),
        Text::Number(program.sites as u64),
        Text::Words(b" "),
        Text::Number(program.doalls as u64),
        Text::Words(b"\n"),
    ];
    write_texts(out, &texts)
}

/// Writes the numbers of the program of a source, or its refusal.
pub(crate) fn write_answer(
    alloc: Global,
    source: &[u8],
    out: &mut MemSink,
) -> Result<(), SinkFault> {
    match program(alloc, source) {
        Ok(program) => write_numbers(&program, out),
        Err(Refusal::Memory) => write_words(out, b"out of memory\n"),
        Err(refusal) => write_refusal(&refusal, out),
    }
}

/// Sources, each with its answer behind a line of hyphens.
const ANSWERS: &str = "PROGRAM P
N = 1 # 2
END
--
refused BadByte at 2:7
==
PROGRAM P
PRINT *, 'ab
END
--
refused OpenText at 2:10
==
PROGRAM P
NNNNNNNNNNNNNNNNNNNNNNNNNNNNNNNN = 1
END
--
refused NameLong at 2:1
==
PROGRAM P
N = 9223372036854775808
END
--
refused NumberWide at 2:5
==
PROGRAM P
!cccccccccccccccccccccccccccccccccccccccccccccccccccccccccccccccccccccccccccccccccccccccccccccccccccccccccccccccccccccccccccccccccccc
END
--
refused LineLong at 2:133
==
PROGRAM P
N == 1
END
--
refused NotAStatement at line 2
==
PROGRAM P
N = (((((((((((((((((((((((((((((((((((((((((((((((((((((((((((((((((1)))))))))))))))))))))))))))))))))))))))))))))))))))))))))))))))))
END
--
refused LineLong at 2:133
==
PROGRAM P
N = (((((((((((((((((((((((((((((((((((((((((((((((((((((((((((((((((1 &
)))))))))))))))))))))))))))))))))))))))))))))))))))))))))))))))))
END
--
refused Depth at line 2
==
PROGRAM P
END DO
END
--
refused Nesting at line 2
==
PROGRAM P
X = 1
END
--
refused Undeclared at 2:1
==
PROGRAM P
INTEGER A, A
END
--
refused Duplicate at 2:9 and 2:12
==
PROGRAM P
INTEGER A(N)
END
--
refused NotConstant at 2:11
==
PROGRAM P
INTEGER A(2)
A = 1
END
--
refused Shape at 3:1
==
PROGRAM P
DO K = 1, 2
K = 3
END DO
END
--
refused DoVariable at 3:1
==
PROGRAM P
INTEGER A(2097152), B(2097153)
END
--
refused TooMany words limit 4194304
==
--
refused Nesting at line 1
==
PROGRAM P
X = 1
END DO
END
--
refused Nesting at line 3
==
PROGRAM P
END DO
N == 1
END
--
refused NotAStatement at line 3
==
PROGRAM P
N == 1
N = #
END
--
refused BadByte at 3:5
==
PROGRAM P
DOALL K = 1, 2
PRINT *, K
END DOALL
END
--
refused DoallBody at 3:1
==
PROGRAM P
DOALL K = 1, 2
N = K
END DOALL
END
--
refused NotPrivate at 3:1
==
PROGRAM P
X = 1
DOALL K = 1, 2
CALL Q
END DOALL
END
--
refused NotAStatement at line 4
==
PROGRAM P
N = 1
IF (N == 1) CALL Q
CALL Q
END
--
refused NotAStatement at line 3
==
PROGRAM P
N = 1
END
SUBROUTINE S
CALL S
END
--
refused NotAStatement at line 4
==
PROGRAM P
DOALL K = 1, 2
END DO
END
--
refused Nesting at line 3
==
PROGRAM ONE
N = 2 + 3
PRINT *, N + 1
END
--
1 1 1 2 0
==
PROGRAM P
END
--
1 0 0 0 0
==
PROGRAM P
INTEGER A(3, 2:5), B
B = A(1, 2)
DO K = 1, 2
A(K, 3) = B + K
END DO
END
--
1 3 14 9 0
==
PROGRAM P
READ *, I, J
IF (I < J .AND. I > 0) PRINT *, 'low', I
END
--
1 2 2 6 0
==
PROGRAM P
INTEGER, PARAMETER :: M = 4
INTEGER A(M)
A(M) = M
END
--
1 1 4 1 0
==
PROGRAM C
INTEGER A(10)
DOALL I = 1, 9
A(I) = A(I + 1)
END DOALL
END
--
refused Conflict at 4:8 and 4:1
==
PROGRAM C
INTEGER A(19)
DOALL I = 1, 9
A(2*I) = A(2*I + 1)
END DOALL
END
--
1 2 20 2 1
==
PROGRAM S
INTEGER A(10:129)
DOALL I = 1, 10 PRIVATE(J)
DO J = 0, 9
A(10*I + J) = I
END DO
END DOALL
END
--
1 3 122 1 1
==
PROGRAM S
INTEGER A(10:129)
DOALL I = 1, 10 PRIVATE(J)
DO J = 0, 10
A(10*I + J) = I
END DO
END DOALL
END
--
refused Conflict at 5:1 and 5:1
==
PROGRAM G
INTEGER A(4), IDX(4)
DOALL I = 1, 4
A(IDX(I)) = I
END DOALL
END
--
refused Conflict at 4:1 and 4:1
==
PROGRAM P
INTEGER A(4)
DOALL I = 1, 4
A(I) = I
END DOALL
DOALL I = 1, 4
A(1) = I
END DOALL
DOALL I = 1, 4
A(2) = I
END DOALL
END
--
refused Conflict at 7:1 and 7:1
";

#[test]
fn sources_are_answered(rt: HostRuntime) -> Result<(), Fail> {
    for case in ANSWERS.split("==\n") {
        let (source, text) = case.split_once("--\n").unwrap_or((case, ""));
        let mut sink = MemSink::new(rt.alloc(), 100, Vec::new(rt.alloc()))?;
        assert_eq!(rt;
            write_answer(rt.alloc(), source.as_bytes(), &mut sink),
            Ok(())
        );
        assert_eq!(rt; sink.bytes(), text.as_bytes(), "{source}");
    }
    Ok(())
}

/// A sweep over two grids: two indexes, a scalar of the loop around, and a continued line.
const JACOBI: &str = "PROGRAM JACOBI
  IMPLICIT NONE
  INTEGER, PARAMETER :: N = 64
  INTEGER :: U(N, N), V(N, N), C(N)   ! two grids, one row of coefficients
  INTEGER :: I, J, K
  DO I = 1, N
    C(I) = 2 * I
  END DO
  DOALL J = 1, N PRIVATE(I)
    DO I = 1, N
      U(I, J) = 4 * (I + J)
    END DO
  END DOALL
  DO K = 1, 10
    DOALL J = 2, N - 1 PRIVATE(I)
      DO I = 2, N - 1
        V(I, J) = (U(I - 1, J) + U(I + 1, J) + U(I, J - 1) + &
                   U(I, J + 1)) / 4 + C(I) - 2 * I
      END DO
    END DOALL
    DOALL J = 2, N - 1 PRIVATE(I)
      DO I = 2, N - 1
        U(I, J) = V(I, J)
      END DO
    END DOALL
  END DO
  PRINT *, U(32, 32), U(1, 1), U(63, 2)
END PROGRAM JACOBI
";

#[test]
fn a_sweep_is_accepted(rt: HostRuntime) -> Result<(), Fail> {
    let mut sink = MemSink::new(rt.alloc(), 100, Vec::new(rt.alloc()))?;
    assert_eq!(rt;
        write_answer(rt.alloc(), JACOBI.as_bytes(), &mut sink),
        Ok(())
    );
    let text = b"1 6 8259 21 3\n";
    assert_eq!(rt; sink.bytes(), text.as_slice());
    Ok(())
}

#[test]
fn a_source_has_its_limit(rt: HostRuntime) -> Result<(), Fail> {
    let mut source = ONE.as_bytes().to_vec(rt.alloc())?;
    source.resize(262144, b'\n')?;
    let mut sink = MemSink::new(rt.alloc(), 100, Vec::new(rt.alloc()))?;
    assert_eq!(rt; write_answer(rt.alloc(), &source, &mut sink), Ok(()));
    source.push(b'\n')?;
    assert_eq!(rt; write_answer(rt.alloc(), &source, &mut sink), Ok(()));
    let text = b"1 1 1 2 0\nrefused TooMany source limit 262144\n";
    assert_eq!(rt; sink.bytes(), text.as_slice());
    Ok(())
}

#[test]
fn a_fault_of_the_sink_is_handed_on(rt: HostRuntime) -> Result<(), Fail> {
    let mut sink = MemSink::new(rt.alloc(), 100, vec![in rt.alloc(); 3]?)?;
    let refusal = Refusal::Lex(LexRefusal::BadByte(Place { line: 2, column: 7 }));
    assert_eq!(rt; write_refusal(&refusal, &mut sink), Err(SinkFault::Failed));
    assert_eq!(rt; sink.bytes(), b"refused BadByte".as_slice());
    Ok(())
}
