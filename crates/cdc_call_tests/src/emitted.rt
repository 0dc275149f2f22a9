// A program with a CALL built by hand, and the code that the table of templates gives for it. The other statements are in
// cdc_compile_tests, where a source is a string.
use cdc_base::{List, NoMemory, Place};
use cdc_code::{Code, Instr};
use cdc_emit::emit;
use cdc_prog::{
    Actual, BinOp, Dim, Dummy, Expr, Mark, Marks, Object, Program, Ref, Stmt, Target, Unit, Var,
};
use std::alloc::Global;
use std::process::Abort;
use std::test::Fail;

// SUBROUTINE S(X, K); X(K) = K; END; PROGRAM P; CALL S(A, 1 + 2); END
const CALLING: &[(u32, Instr)] = &[
    (2, Instr::Load(Var::Dummy(1), 1, Mark::Ordinary)),
    (2, Instr::Index(Var::Dummy(0))),
    (2, Instr::Load(Var::Dummy(1), 2, Mark::Time(3))),
    (2, Instr::Storee(Var::Dummy(0), 3)),
    (0, Instr::Return),
    (5, Instr::Arg(Var::Object(0))),
    (5, Instr::Const(1)),
    (5, Instr::Const(2)),
    (5, Instr::Add),
    (5, Instr::Store(Var::Object(1), 4)),
    (5, Instr::Arg(Var::Object(1))),
    (5, Instr::Call(0)),
    (0, Instr::Halt),
];

fn at(site: u32, var: Var) -> Ref {
    Ref {
        var,
        site,
        place: Place { line: 0, column: 0 },
    }
}

fn bin(alloc: Global, op: BinOp, a: Expr, b: Expr) -> Result<Expr, NoMemory> {
    Ok(Expr::Bin(op, Box::new(alloc, a)?, Box::new(alloc, b)?))
}

fn element(alloc: Global, at: Ref, sub: Expr) -> Result<Target, NoMemory> {
    Ok(Target {
        at,
        subs: List::of(vec![in alloc; sub]?),
    })
}

fn set(line: u32, target: Target, value: Expr) -> Stmt {
    Stmt::Assign {
        line,
        target,
        value,
    }
}

// Site 2 has a mark of its own, and the sites past the list are ordinary.
fn marks(alloc: Global) -> Result<Marks, NoMemory> {
    let written = List::of(vec![in alloc; 0, 2]?);
    Ok(Marks {
        reads: List::of(vec![in alloc; Mark::Ordinary, Mark::Time(3), Mark::Ordinary]?),
        entries: List::of(vec![in alloc; List::new(alloc)]?),
        exits: List::of(vec![in alloc; written]?),
    })
}

fn compare(rt: &impl Abort, code: &Code, expected: &[(u32, Instr)]) {
    let steps = code.steps.as_slice();
    assert_eq!(rt; steps.len(), expected.len());
    for (step, (line, instr)) in steps.iter().zip(expected) {
        assert_eq!(rt; step.instr, *instr);
        assert_eq!(rt; step.line, *line);
    }
}

const BOUNDS: Dim = Dim { low: 0, extent: 9 };

fn dummy(alloc: Global, dims: Vec<Dim>) -> Dummy {
    Dummy {
        name: List::new(alloc),
        dims: List::of(dims),
        written: true,
    }
}

fn object(alloc: Global, dims: Vec<Dim>, base: u32, words: u32) -> Result<Object, NoMemory> {
    Ok(Object {
        unit: 1,
        name: List::of(vec![in alloc; b'A']?),
        dims: List::of(dims),
        base,
        words,
    })
}

fn unit(alloc: Global, dummies: Vec<Dummy>, body: Vec<Stmt>) -> Unit {
    Unit {
        name: List::new(alloc),
        dummies: List::of(dummies),
        body: List::of(body),
    }
}

fn subroutine(alloc: Global) -> Result<Unit, NoMemory> {
    let k = Var::Dummy(1);
    let target = element(alloc, at(3, Var::Dummy(0)), Expr::Scalar(at(1, k)))?;
    let body = vec![in alloc; set(2, target, Expr::Scalar(at(2, k)))]?;
    let array = dummy(alloc, vec![in alloc; BOUNDS]?);
    let dummies = vec![in alloc; array, dummy(alloc, Vec::new(alloc))]?;
    Ok(unit(alloc, dummies, body))
}

fn caller(alloc: Global) -> Result<Unit, NoMemory> {
    let three = bin(alloc, BinOp::Add, Expr::Number(1), Expr::Number(2))?;
    let hidden = Actual::Copy(at(4, Var::Object(1)), three);
    let call = Stmt::Call {
        line: 5,
        unit: 0,
        actuals: List::of(vec![in alloc; Actual::Whole(Var::Object(0)), hidden]?),
    };
    Ok(unit(alloc, Vec::new(alloc), vec![in alloc; call]?))
}

fn objects(alloc: Global) -> Result<Vec<Object>, NoMemory> {
    let array = object(alloc, vec![in alloc; BOUNDS]?, 0, 9)?;
    let hidden = object(alloc, Vec::new(alloc), 9, 1)?;
    Ok(vec![in alloc; array, hidden]?)
}

// SUBROUTINE S(X, K); X(K) = K; END; PROGRAM P; CALL S(A, 1 + 2); END
fn calling(alloc: Global) -> Result<Program, NoMemory> {
    let units = vec![in alloc; subroutine(alloc)?, caller(alloc)?]?;
    let objects = objects(alloc)?;
    let text = List::of(vec![in alloc; b'h', b'i']?);
    Ok(Program {
        units: List::of(units),
        main: 1,
        objects: List::of(objects),
        texts: List::of(vec![in alloc; text]?),
        sites: 4,
        doalls: 0,
        words: 10,
    })
}

#[test]
fn a_call_has_its_template(rt: HostRuntime) -> Result<(), Fail> {
    let alloc = rt.alloc();
    let code = emit(alloc, &calling(alloc)?, &marks(alloc)?)?;
    compare(&rt, &code, CALLING);
    assert_eq!(rt; code.starts.as_slice(), [0, 5].as_slice());
    assert_eq!(rt; code.shapes.as_slice().len(), 2);
    assert_eq!(rt; code.objects.as_slice().len(), 2);
    assert_eq!(rt; code.texts.as_slice().len(), 1);
    Ok(())
}
