//! Affine forms of subscripts, the ranges of loops, and the intervals of sums of terms.
#![tactic(auto)]

mod constants;
mod forms;
mod ranges;
mod spans;
mod terms;

pub use cdc_prog::{Affine, Index, Range, Scope, Term};
pub use constants::constant;
pub use forms::{form_of, index_in, is_in, is_index};
pub use ranges::range_of;
pub use spans::{range_in, wide_span};
pub use terms::{add, same_var};
