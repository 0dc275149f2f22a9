// A code built by hand, its output and its end.
ghost use Rattle.std.specs.Prelude.{◌≡◌, IfOk, [], ◌∷◌};
ghost use Rattle.cdc_prog.specs.Examples.{scalar, one};
ghost use Rattle.cdc_code.specs.Examples.{unmarked};

use cdc_base::{List, MemSink, NoMemory};
use cdc_code::{Code, Instr, Step, Var};
use cdc_input::InputRecords;
use cdc_prog::Object;
use cdc_task::{Mark, Plain, run_alone};
use std::alloc::Global;
use std::test::Fail;

const N: Var = Var::Object(0);

fn at(line: u32, instr: Instr) -> Step
    ensures { result ≡ record { instr = instr; line = line } }
{
    Step { instr, line }
}

// The code of a program of one unit and one scalar.
fn code(alloc: Global, steps: Vec<Step>) -> Result<Code, NoMemory>
    ensures { IfOk result (λ c. c ≡ record { steps = steps.items; starts = 0 ∷ []; main = 0; shapes = [] ∷ []; objects = scalar 0 ∷ []; texts = []; entries = []; exits = []; words = 1 }) }
{
    let object = Object {
        unit: 0,
        name: List::new(alloc),
        dims: List::new(alloc),
        base: 0,
        words: 1,
    };
    Ok(Code {
        steps: List::of(steps),
        starts: List::of(vec![in alloc; 0]?),
        main: 0,
        shapes: List::of(vec![in alloc; List::new(alloc)]?),
        objects: List::of(vec![in alloc; object]?),
        texts: List::new(alloc),
        entries: List::new(alloc),
        exits: List::new(alloc),
        words: 1,
    })
}

// N = 2 + 3; PRINT *, N + 1
fn sum(alloc: Global) -> Result<Code, NoMemory>
    ensures { IfOk result (λ c. c ≡ unmarked one) }
{
    let steps = vec![in alloc;
        at(2, Instr::Const(2)),
        at(2, Instr::Const(3)),
        at(2, Instr::Add),
        at(2, Instr::Store(N, 1)),
        at(3, Instr::Load(N, 2, Mark::Ordinary)),
        at(3, Instr::Const(1)),
        at(3, Instr::Add),
        at(3, Instr::Put),
        at(3, Instr::Line),
        at(0, Instr::Halt),
    ]?;
    code(alloc, steps)
}

#[test]
fn code_is_carried_out(rt: HostRuntime) -> Result<(), Fail> {
    let alloc = rt.alloc();
    let records = InputRecords {
        records: List::new(alloc),
    };
    let sum = sum(alloc)?;
    let mut out = MemSink::new(alloc, 200, vec![in alloc]?)?;
    assert_eq!(rt; run_alone(alloc, &sum, &records, &mut out), Plain::Done);
    assert_eq!(rt; out.bytes(), b"6\n".as_slice());
    let mut small = MemSink::new(alloc, 1, vec![in alloc]?)?;
    assert_eq!(rt;
        run_alone(alloc, &sum, &records, &mut small),
        Plain::SinkFault
    );
    assert_eq!(rt; small.bytes(), b"6".as_slice());
    Ok(())
}
