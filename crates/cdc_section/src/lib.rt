//! Regular sections: the positions that a reference to an array may name, and whether two sections overlap.
#![tactic(auto)]

mod overlaps;
mod sections;
mod triplets;

pub use overlaps::overlap;
pub use sections::section_of;
