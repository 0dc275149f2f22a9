use cdc_base::{List, NoMemory, Place};
use cdc_num::Triplet;
use cdc_prog::{BinOp, Dim, Expr, Index, Range, Ref, Scope, Var};
use cdc_section::{overlap, section_of};
use std::alloc::Global;
use std::fmt::Write;
use std::test::Fail;

const I: Var = Var::Slot(0);

const J: Var = Var::Object(0);

// An index without a range.
const N: Var = Var::Object(1);

// Cases, each a line of numbers: the range of I, the coefficients of I and J and the constant of the subscript, the lower bound
// and the extent, and the triplet. J is 0, 1, 2. A line that begins with a letter says what those behind it show.
const TRIPLETS: &str = "\
From the least value to the greatest, by the greatest common divisor of |coefficient * step|.
1 10 1, 1 0 0, 1 10, 0 9 1
1 4 3, 2 0 0, 0 21, 2 8 6
1 4 3, -2 0 10, 0 21, 2 8 6
0 2 1, 2 3 0, 0 21, 0 10 1
0 1 1, 4 6 0, 0 21, 0 16 2
0 2 2, -3 4 6, 0 21, 0 14 2
No index has a coefficient.
0 2 1, 0 0 5, 1 10, 4 4 1
An index of one value keeps its step.
3 3 7, 1 0 0, 1 10, 2 2 7
Less the lower bound.
-2 2 1, 1 0 0, -5 10, 3 7 1
The first member that is at least 0.
1 9 4, 1 0 0, 3 10, 2 6 4
1 9 4, 1 0 0, 5 10, 0 4 4
1 9 4, 1 0 0, 6 10, 3 3 4
At most the extent less 1, a member or not.
1 9 4, 1 0 0, 1 9, 0 8 4
1 9 4, 1 0 0, 1 8, 0 7 4
A step over 2^22, after the cut.
0 1 1, 4194304 0 0, 0 10, 0 9 4194304
0 1 1, 4194305 0 0, 0 10, 0 9 4194304
1 2 1, 10000000 0 -19999999, 1 4, 0 0 4194304
Nothing is left.
11 20 1, 1 0 0, 1 10, 1 0 1
10 19 1, 1 0 0, 1 10, 9 9 1
-5 0 1, 1 0 0, 1 10, 1 0 1
-5 1 1, 1 0 0, 1 10, 0 0 1
0 1 1, 12 0 -1, 1 10, 1 0 1
0 1 1, 11 0 -1, 1 10, 9 9 11
";

fn scalar(var: Var) -> Expr {
    Expr::Scalar(Ref {
        var,
        site: 1,
        place: Place { line: 0, column: 0 },
    })
}

fn bin(alloc: Global, op: BinOp, a: Expr, b: Expr) -> Result<Expr, NoMemory> {
    Ok(Expr::Bin(op, Box::new(alloc, a)?, Box::new(alloc, b)?))
}

fn term(alloc: Global, times: i64, var: Var) -> Result<Expr, NoMemory> {
    bin(alloc, BinOp::Mul, Expr::Number(times), scalar(var))
}

fn scope(alloc: Global, (lo, hi, step): (i64, i64, i64)) -> Result<Scope, NoMemory> {
    let i = Index {
        var: I,
        range: Some(Range { lo, hi, step }),
    };
    let j = Index {
        var: J,
        range: Some(Range {
            lo: 0,
            hi: 2,
            step: 1,
        }),
    };
    let n = Index {
        var: N,
        range: None,
    };
    Ok(Scope {
        indexes: List::of(vec![in alloc; i, j, n]?),
        fixed: List::new(alloc),
    })
}

fn triplet((lo, hi, step): (u32, u32, u32)) -> Triplet {
    Triplet { lo, hi, step }
}

// The numbers of a line, with a blank between two, some behind a comma.
fn numbers(alloc: Global, line: &str) -> Result<Vec<i64>, Fail> {
    let mut list = Vec::new(alloc);
    for word in line.split(' ') {
        let word = word.strip_suffix(',').unwrap_or(word);
        list.push(word.parse::<i64>()?)?;
    }
    Ok(list)
}

// The triplet of a subscript in a dimension, as text.
fn triplet_text(alloc: Global, numbers: &[i64]) -> Result<String, Fail> {
    let mut text = String::new(alloc);
    let [lo, hi, step, i, j, rest, low, extent, ..] = numbers else {
        return Ok(text);
    };
    let both = bin(alloc, BinOp::Add, term(alloc, *i, I)?, term(alloc, *j, J)?)?;
    let sub = bin(alloc, BinOp::Add, both, Expr::Number(*rest))?;
    let subs = List::of(vec![in alloc; sub]?);
    let low = *low;
    let extent = u32::try_from(*extent)?;
    let dims = List::of(vec![in alloc; Dim { low, extent }]?);
    let found = section_of(alloc, &subs, &dims, &scope(alloc, (*lo, *hi, *step))?)?;
    for Triplet { lo, hi, step } in found.as_slice() {
        write!(text, ", {lo} {hi} {step}")?;
    }
    Ok(text)
}

#[test]
fn a_triplet_is_made_in_six_steps(rt: HostRuntime) -> Result<(), Fail> {
    for line in TRIPLETS.lines() {
        if !line.starts_with(|c: char| c.is_ascii_alphabetic()) {
            let numbers = numbers(rt.alloc(), line)?;
            let found = triplet_text(rt.alloc(), &numbers)?;
            assert!(rt;
                line.ends_with(found.as_str()) && !found.is_empty(),
                "{line}"
            );
        }
    }
    Ok(())
}

#[test]
fn a_dimension_without_values_is_whole(rt: HostRuntime) -> Result<(), Fail> {
    let alloc = rt.alloc();
    let scope = scope(alloc, (1, 10, 1))?;
    // I * I has no form, N no range; N - N + 2 has no index with a coefficient.
    let square = bin(alloc, BinOp::Mul, scalar(I), scalar(I))?;
    let none = bin(alloc, BinOp::Sub, scalar(N), scalar(N))?;
    let two = bin(alloc, BinOp::Add, none, Expr::Number(2))?;
    let subs = List::of(vec![in alloc; square, scalar(N), two]?);
    let dim = Dim { low: 1, extent: 4 };
    let dims = List::of(vec![in alloc; dim, dim, dim]?);
    let found = section_of(alloc, &subs, &dims, &scope)?;
    let want = [triplet((0, 3, 1)), triplet((0, 3, 1)), triplet((1, 1, 1))];
    assert_eq!(rt; found.as_slice(), want.as_slice());
    // A scalar has no dimension.
    let none = section_of(alloc, &List::new(alloc), &List::new(alloc), &scope)?;
    assert!(rt; none.as_slice().is_empty());
    Ok(())
}

#[test]
fn sections_overlap_in_every_dimension(rt: HostRuntime) -> Result<(), Fail> {
    let alloc = rt.alloc();
    let even = triplet((0, 9, 2));
    let odd = triplet((1, 9, 2));
    let all = triplet((0, 9, 1));
    let nothing = triplet((1, 0, 1));
    for (a, b, want) in [
        ([even, even], [all, all], true),
        ([even, odd], [all, all], true),
        ([even, even], [all, odd], false),
        ([even, even], [odd, all], false),
        ([all, nothing], [all, all], false),
    ] {
        let a = List::of(vec![in alloc; a[0], a[1]]?);
        let b = List::of(vec![in alloc; b[0], b[1]]?);
        assert_eq!(rt; overlap(&a, &b), want);
        assert_eq!(rt; overlap(&b, &a), want);
    }
    let one = List::of(vec![in alloc; all]?);
    assert!(rt; overlap(&List::new(alloc), &List::new(alloc)));
    assert!(rt; !overlap(&one, &List::new(alloc)));
    assert!(rt; !overlap(&List::new(alloc), &one));
    Ok(())
}
