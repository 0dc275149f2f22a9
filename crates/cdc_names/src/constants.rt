ghost use Rattle.std.specs.Prelude.{◌≡◌, map};
ghost use Rattle.cdc_tree.specs.Plain.{plain, plains};
ghost use Rattle.cdc_names.specs.Constants.{begun, constant, constants, further, known, place_of};

use crate::arithmetic::{both, single};
use crate::table::Table;
use cdc_base::Place;
use cdc_prog::{BinOp, UnOp};
use cdc_tree::{Intrinsic, Tree};

/// The value of a constant expression over the PARAMETERs that are known, where it has one
/// (ISO/IEC 1539:1991, section 7.1.6.1).
#[cycle(constant)]
pub fn constant(values: &Table<i64>, t: &Tree) -> Option<i64>
    ensures { result ≡ constant values.now (plain t.now) }
{
    match t {
        Tree::Number(_, n) => Some(*n),
        Tree::Name(n) => values.get(n.name.as_slice()),
        Tree::Apply(_, _) => None,
        Tree::Paren(_, a) => constant(values, a),
        Tree::Plus(_, a) => constant(values, a),
        Tree::Un(_, op, a) => single(*op, constant(values, a)),
        Tree::Bin(op, a, b) => both(*op, constant(values, a), constant(values, b)),
        Tree::Known(_, which, args) => known(values, *which, args.as_slice()),
    }
}

#[cycle(constant)]
fn known(values: &Table<i64>, which: Intrinsic, args: &[Tree]) -> Option<i64>
    ensures { result ≡ known which (constants values.now (plains (map plain args.now))) }
{
    match args {
        [] => None,
        [first, rest @ ..] => {
            let mut value = begun(which, constant(values, first));
            for t in rest {
                value = further(which, value, constant(values, t));
            }
            value
        }
    }
}

fn begun(which: Intrinsic, a: Option<i64>) -> Option<i64>
    ensures { result ≡ begun which a }
{
    match which {
        Intrinsic::Abs => single(UnOp::Abs, a),
        _ => a,
    }
}

fn further(which: Intrinsic, a: Option<i64>, b: Option<i64>) -> Option<i64>
    ensures { result ≡ further which a b }
{
    match which {
        Intrinsic::Abs => a,
        Intrinsic::Mod => both(BinOp::Mod, a, b),
        Intrinsic::Min => both(BinOp::Min, a, b),
        Intrinsic::Max => both(BinOp::Max, a, b),
    }
}

/// The place of a tree's first token.
pub fn place_of(t: &Tree) -> Place
    ensures { result ≡ place_of (plain t.now) }
{
    match t {
        Tree::Number(place, _) => *place,
        Tree::Name(n) => n.place,
        Tree::Apply(n, _) => n.place,
        Tree::Paren(place, _) => *place,
        Tree::Plus(place, _) => *place,
        Tree::Un(place, _, _) => *place,
        Tree::Bin(_, a, _) => place_of(a),
        Tree::Known(place, _, _) => *place,
    }
}
