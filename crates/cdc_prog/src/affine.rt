use crate::expr::Var;
use cdc_base::List;

/// The values of an index: from `lo` to `hi` by `step`.
#[derive(Clone, Copy, Debug, PartialEq, Eq)]
pub struct Range {
    pub lo: i64,
    pub hi: i64,
    pub step: i64,
}

/// A loop variable, with its range where its controls are constant.
#[derive(Clone, Copy, Debug, PartialEq, Eq)]
pub struct Index {
    pub var: Var,
    pub range: Option<Range>,
}

/// The variables of which a form may speak.
#[derive(Debug, Drop)]
pub struct Scope {
    /// The innermost loop's first.
    pub indexes: List<Index>,
    /// The scalars that keep their value.
    pub fixed: List<Var>,
}

/// A variable times a coefficient.
#[derive(Clone, Copy, Debug, PartialEq, Eq)]
pub struct Term {
    pub var: Var,
    pub times: i64,
}

/// A sum of terms and a constant.
#[derive(Debug, Drop)]
pub struct Affine {
    /// In the order of objects, dummies, slots and their numbers, without coefficients 0.
    pub terms: List<Term>,
    pub rest: i64,
}
