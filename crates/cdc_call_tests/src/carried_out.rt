// A program built by hand, its output and its end.
ghost use Rattle.std.specs.Prelude.{◌≡◌, IfOk, [], ◌∷◌, map};
ghost use Rattle.cdc_prog.specs.Numbered.{calls_numbered};
ghost use Rattle.cdc_prog.specs.Plain as plain;
ghost use Rattle.cdc_prog.specs.Translation.{expr_of, target_of, stmt_of, chain, program_of};
ghost use Rattle.cdc_prog.specs.Examples.{ref, scalar, print, one};
ghost use Rattle.cdc_meaning.specs.Examples.{alone};

use cdc_base::{List, MemSink, NoMemory, Place};
use cdc_input::InputRecords;
use cdc_meaning::{Plain, run_lines, run_plain};
use cdc_prog::{BinOp, Expr, Item, Object, Program, Ref, Stmt, Target, Unit, Var};
use std::alloc::Global;
use std::test::Fail;

// A reference to a scalar object.
fn at(site: u32, object: u32) -> Ref
    ensures { result ≡ ref site (Var.Object object) }
{
    Ref {
        var: Var::Object(object),
        site,
        place: Place { line: 0, column: 0 },
    }
}

fn bin(alloc: Global, op: BinOp, a: Expr, b: Expr) -> Result<Expr, NoMemory>
    ensures { IfOk result (λ e. expr_of e ≡ plain.Bin op (expr_of a) (expr_of b)) }
{
    Ok(Expr::Bin(op, Box::new(alloc, a)?, Box::new(alloc, b)?))
}

fn target(alloc: Global, site: u32, object: u32) -> Target
    ensures { target_of result ≡ record { at = ref site (Var.Object object); subs = plain.Empty } }
{
    Target {
        at: at(site, object),
        subs: List::new(alloc),
    }
}

fn object(alloc: Global, base: u32) -> Object
    ensures { result ≡ scalar base }
{
    Object {
        unit: 0,
        name: List::new(alloc),
        dims: List::new(alloc),
        base,
        words: 1,
    }
}

// A program of one unit over scalars.
fn program(
    alloc: Global,
    body: Vec<Stmt>,
    objects: Vec<Object>,
    words: u32,
) -> Result<Program, NoMemory>
    ensures { IfOk result (λ p. program_of p ≡ alone (calls_numbered 0 (chain (map stmt_of body.items))) objects.items words) }
{
    let main = Unit {
        name: List::new(alloc),
        dummies: List::new(alloc),
        body: List::of(body),
    };
    Ok(Program {
        units: List::of(vec![in alloc; main]?),
        main: 0,
        objects: List::of(objects),
        texts: List::new(alloc),
        sites: 0,
        doalls: 0,
        words,
    })
}

fn print_value(alloc: Global, line: u32, e: Expr) -> Result<Stmt, NoMemory>
    ensures { IfOk result (λ s. stmt_of s ≡ print line (expr_of e ∷ [])) }
{
    Ok(Stmt::Print {
        line,
        items: List::of(vec![in alloc; Item::Value(e)]?),
    })
}

// N = 2 + 3; PRINT *, N + 1
fn sum(alloc: Global) -> Result<Program, NoMemory>
    ensures { IfOk result (λ p. program_of p ≡ one) }
{
    let five = bin(alloc, BinOp::Add, Expr::Number(2), Expr::Number(3))?;
    let six = bin(alloc, BinOp::Add, Expr::Scalar(at(2, 0)), Expr::Number(1))?;
    let set = Stmt::Assign {
        line: 2,
        target: target(alloc, 1, 0),
        value: five,
    };
    let body = vec![in alloc; set, print_value(alloc, 3, six)?]?;
    program(alloc, body, vec![in alloc; object(alloc, 0)]?, 1)
}

#[test]
fn a_program_runs_to_its_end(rt: HostRuntime) -> Result<(), Fail> {
    let alloc = rt.alloc();
    let program = sum(alloc)?;
    let records = InputRecords {
        records: List::new(alloc),
    };
    let mut out = MemSink::new(alloc, 200, vec![in alloc]?)?;
    assert_eq!(rt; run_plain(alloc, &program, &records, &mut out), Plain::Done);
    assert_eq!(rt; out.bytes(), b"6\n".as_slice());
    let mut failing = MemSink::new(alloc, 200, vec![in alloc; 1]?)?;
    let end = run_lines(alloc, &program, &records, &mut failing);
    assert_eq!(rt; end.answer, Plain::SinkFault);
    assert!(rt; failing.bytes().is_empty());
    let mut small = MemSink::new(alloc, 1, vec![in alloc]?)?;
    let end = run_lines(alloc, &program, &records, &mut small);
    assert_eq!(rt; end.answer, Plain::SinkFault);
    assert_eq!(rt; small.bytes(), b"6".as_slice());
    Ok(())
}
