// What the rules ask of one form, taken once, so that a pair of forms is compared without memory.
ghost use Rattle.std.specs.Prelude.{◌≡◌, ◌^◌, true, IfSome};
ghost use Rattle.std.proofs.Props.{props};
ghost use Rattle.cdc_num.specs.Intervals.{IsBelow};
ghost use Rattle.cdc_prog.specs.Affine.{is_small};

use cdc_affine::Term;
use cdc_base::List;
use cdc_num::Interval;

/// A form of a subscript, as the rules see it.
#[derive(Drop)]
pub struct Sketch {
    /// The terms of fixed scalars.
    pub still: List<Term>,
    /// Whether no index has a coefficient.
    pub steady: bool,
    /// The greatest common divisor of the coefficients of indexes.
    pub common: u128,
    /// The interval of the terms of indexes, where each has a range.
    pub whole: Option<Interval>,
    /// The coefficient of the index of the DOALL.
    pub own: i64,
    /// The interval of the terms of the other indexes.
    pub others: Option<Interval>,
    /// The constant.
    pub rest: i64,
    ghost small: { is_small rest ≡ true },
    ghost wide: { IfSome whole (IsBelow (2 ^ 124)) } by { Prim.hlevel props },
    ghost narrow: { IfSome others (IsBelow (2 ^ 124)) } by { Prim.hlevel props },
}
