//! Marks of reads and written lists of boundaries.
#![tactic(auto)]

mod bits;
mod classes;
mod covers;
mod marked;
mod references;
mod sameness;
mod search;
mod unit_marks;
mod written;

pub use cdc_prog::{Mark, Marks};
pub use unit_marks::marks;
