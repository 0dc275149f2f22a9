//! The dependence test of a DOALL.
#![tactic(auto)]

mod alike;
mod conflict;
mod pairs;
mod parts;
mod references;
mod rules;
mod scalars;
mod sketch;
mod sketches;
mod verdict;

pub use conflict::first_conflict;
pub use verdict::{Verdict, test};
