//! Sources, each with the instructions that the table of templates gives for it behind a line of hyphens, and the line of each.

use cdc_code::Step;
use cdc_compile::compile;
use std::alloc::Global;
use std::fmt::Write;
use std::test::Fail;

const ONE: &str = "PROGRAM ONE
N = 2 + 3
PRINT *, N + 1
END
--
2 Const(2)
2 Const(3)
2 Add
2 Store(Object(0), 1)
3 Load(Object(0), 2, Ordinary)
3 Const(1)
3 Add
3 Put
3 Line
0 Halt
";

const LARGE: &str = "PROGRAM P
INTEGER A(3)
READ *, A(2)
IF (A(2) > 1) PRINT *, 'x', -A(2)
END
--
3 Const(2)
3 Index(Object(0))
3 Take
3 Storee(Object(0), 1)
3 RecordEnd
4 Const(2)
4 Index(Object(0))
4 Loade(Object(0), 2, Ordinary)
4 Const(1)
4 Gt
4 Jumpz(9)
4 Text(0)
4 Const(2)
4 Index(Object(0))
4 Loade(Object(0), 3, Ordinary)
4 Neg
4 Gap
4 Put
4 Line
0 Halt
";

// A sign stands before a whole term, so `-7 / 2` is the negative of a quotient.
const SIGNS: &str = "PROGRAM AR
PRINT *, MOD(-7, 3), -7 / 2, 7 / (-2), -2 * 3
K = -9223372036854775807 - 1
PRINT *, K
PRINT *, ABS(K)
END
--
2 Const(7)
2 Neg
2 Const(3)
2 Mod
2 Put
2 Const(7)
2 Const(2)
2 Div
2 Neg
2 Gap
2 Put
2 Const(7)
2 Const(2)
2 Neg
2 Div
2 Gap
2 Put
2 Const(2)
2 Const(3)
2 Mul
2 Neg
2 Gap
2 Put
2 Line
3 Const(9223372036854775807)
3 Neg
3 Const(1)
3 Sub
3 Store(Object(0), 1)
4 Load(Object(0), 2, Ordinary)
4 Put
4 Line
5 Load(Object(0), 3, Ordinary)
5 Abs
5 Put
5 Line
0 Halt
";

const ZERO: &str = "PROGRAM ZERO
DOALL I = 5, 4
END DOALL
PRINT *, 'x'
END
--
2 Const(5)
2 Const(4)
2 Const(1)
2 Fork(1, 2)
2 Join
4 Text(0)
4 Line
0 Halt
";

const LOOPS: &str = "PROGRAM LO
INTEGER A(9)
DO I = 1, 2
DO J = I, 5, 2
A(J) = I
END DO
END DO
END
--
3 Const(1)
3 Const(2)
3 Const(1)
3 Doinit
3 Store(Object(1), 1)
3 Dotest(19)
4 Load(Object(1), 2, Ordinary)
4 Const(5)
4 Const(2)
4 Doinit
4 Store(Object(2), 3)
4 Dotest(9)
5 Load(Object(2), 4, Ordinary)
5 Index(Object(0))
5 Load(Object(1), 5, Ordinary)
5 Storee(Object(0), 6)
4 Load(Object(2), 7, Ordinary)
4 Doadd
4 Store(Object(2), 8)
4 Jump(-8)
3 Load(Object(1), 9, Ordinary)
3 Doadd
3 Store(Object(1), 10)
3 Jump(-18)
0 Halt
";

const CHOICE: &str = "PROGRAM CH
READ *, N
IF (N < 0) THEN
PRINT *, 'negative', N
ELSE IF (N == 0) THEN
PRINT *
ELSE
N = MAX(ABS(N), -N)
END IF
IF (N > 1) N = 1
END
--
2 Take
2 Store(Object(0), 1)
2 RecordEnd
3 Load(Object(0), 2, Ordinary)
3 Const(0)
3 Lt
3 Jumpz(7)
4 Text(0)
4 Load(Object(0), 3, Ordinary)
4 Gap
4 Put
4 Line
3 Jump(13)
5 Load(Object(0), 4, Ordinary)
5 Const(0)
5 Eq
5 Jumpz(3)
6 Line
5 Jump(7)
8 Load(Object(0), 5, Ordinary)
8 Abs
8 Load(Object(0), 6, Ordinary)
8 Neg
8 Max
8 Store(Object(0), 7)
10 Load(Object(0), 8, Ordinary)
10 Const(1)
10 Gt
10 Jumpz(3)
10 Const(1)
10 Store(Object(0), 9)
0 Halt
";

// The read behind the DOALL is one boundary after the write in it.
const PARALLEL: &str = "PROGRAM PA
INTEGER A(4), B(8)
DOALL I = 1, 4 PRIVATE(K)
K = I * 2
A(I) = K + B(K)
END DOALL
PRINT *, A(1)
END
--
3 Const(1)
3 Const(4)
3 Const(1)
3 Fork(1, 14)
4 Local(0)
4 Const(2)
4 Mul
4 Setlocal(1)
5 Local(0)
5 Index(Object(0))
5 Local(1)
5 Local(1)
5 Index(Object(1))
5 Loade(Object(1), 1, Ordinary)
5 Add
5 Storee(Object(0), 2)
3 Join
7 Const(1)
7 Index(Object(0))
7 Loade(Object(0), 3, Time(1))
7 Put
7 Line
0 Halt
";

// The code of a source, a step a line: the line of its statement, and the instruction.
fn code_of(alloc: Global, source: &str) -> Result<String, Fail> {
    let mut text = String::new(alloc);
    match compile(alloc, source.as_bytes()) {
        Ok(compiled) => write_steps(&mut text, compiled.code.steps.as_slice())?,
        Err(_) => text.push_str("refused")?,
    }
    Ok(text)
}

fn write_steps(text: &mut String, steps: &[Step]) -> Result<(), Fail> {
    for Step { instr, line } in steps {
        writeln!(text, "{line} {instr:?}")?;
    }
    Ok(())
}

#[test]
fn a_source_has_its_code(rt: HostRuntime) -> Result<(), Fail> {
    for case in [ONE, LARGE, SIGNS, ZERO, LOOPS, CHOICE, PARALLEL] {
        let (source, want) = case.split_once("--\n").unwrap_or((case, ""));
        assert_eq!(rt; code_of(rt.alloc(), source)?.as_str(), want, "{source}");
    }
    Ok(())
}
