//! What a tree stands for.

ghost use Rattle.std.specs.Prelude.{◌≡◌, map};
ghost use Rattle.cdc_tree.specs.Plain.{plain, plains};
ghost use Rattle.cdc_parse.specs.Kinds as s;

use cdc_prog::{BinOp, UnOp};
use cdc_tree::{Intrinsic, Tree};

#[derive(Clone, Copy, Debug, PartialEq, Eq)]
pub enum Kind {
    Number,
    Truth,
    Neither,
}

fn number_if(holds: bool) -> Kind
    ensures { result ≡ s.number_if holds }
{
    if holds { Kind::Number } else { Kind::Neither }
}

fn unary_kind(op: UnOp, operand: Kind) -> Kind
    ensures { result ≡ s.unary_kind op operand }
{
    match (op, operand) {
        (UnOp::Neg, Kind::Number) => Kind::Number,
        (UnOp::Not, Kind::Truth) => Kind::Truth,
        _ => Kind::Neither,
    }
}

fn binary_kind(op: BinOp, left: Kind, right: Kind) -> Kind
    ensures { result ≡ s.binary_kind op left right }
{
    match op {
        BinOp::Add | BinOp::Sub | BinOp::Mul | BinOp::Div => of_numbers(left, right, Kind::Number),
        BinOp::Eq | BinOp::Ne | BinOp::Lt | BinOp::Le | BinOp::Gt | BinOp::Ge => {
            of_numbers(left, right, Kind::Truth)
        }
        BinOp::And | BinOp::Or => of_truths(left, right),
        BinOp::Mod | BinOp::Min | BinOp::Max => Kind::Neither,
    }
}

fn of_numbers(left: Kind, right: Kind, kind: Kind) -> Kind
    ensures { result ≡ s.if_number left (s.if_number right kind) }
{
    match (left, right) {
        (Kind::Number, Kind::Number) => kind,
        _ => Kind::Neither,
    }
}

fn of_truths(left: Kind, right: Kind) -> Kind
    ensures { result ≡ s.binary_kind BinOp.And left right }
{
    match (left, right) {
        (Kind::Truth, Kind::Truth) => Kind::Truth,
        _ => Kind::Neither,
    }
}

/// Whether the intrinsic function takes so many arguments.
fn takes(intrinsic: Intrinsic, arguments: usize) -> bool
    ensures { result ≡ s.takes intrinsic arguments }
{
    match intrinsic {
        Intrinsic::Abs => arguments == 1,
        Intrinsic::Mod => arguments == 2,
        Intrinsic::Min => arguments >= 2,
        Intrinsic::Max => arguments >= 2,
    }
}

#[cycle(kind)]
fn are_numbers(trees: &[Tree]) -> bool
    ensures { result ≡ s.are_numbers (plains (map plain trees.now)) }
{
    for tree in trees {
        match kind_of(tree) {
            Kind::Number => {}
            _ => return false,
        }
    }
    true
}

/// The kind of a call of an intrinsic function.
#[cycle(kind)]
fn known_kind(intrinsic: Intrinsic, arguments: &[Tree]) -> Kind
    ensures { result ≡ s.known_kind intrinsic (plains (map plain arguments.now)) }
{
    if takes(intrinsic, arguments.len()) {
        return number_if(are_numbers(arguments));
    }
    Kind::Neither
}

/// What the tree stands for.
#[cycle(kind)]
pub fn kind_of(tree: &Tree) -> Kind
    ensures { result ≡ s.kind (plain tree.now) }
{
    match tree {
        Tree::Number(..) => Kind::Number,
        Tree::Name(_) => Kind::Number,
        Tree::Apply(_, arguments) => number_if(are_numbers(arguments.as_slice())),
        Tree::Paren(_, inner) => kind_of(inner),
        Tree::Plus(_, operand) => unary_kind(UnOp::Neg, kind_of(operand)),
        Tree::Un(_, op, operand) => unary_kind(*op, kind_of(operand)),
        Tree::Bin(op, left, right) => binary_kind(*op, kind_of(left), kind_of(right)),
        Tree::Known(_, intrinsic, arguments) => known_kind(*intrinsic, arguments.as_slice()),
    }
}
