//! Texts on a program, its code and its marks, and on a run of it.
#![tactic(auto)]

mod accepted;
mod accesses;
mod boundaries;
mod end;
mod listing;
mod marks;
mod names;
mod operands;

pub use accepted::write_accepted;
pub use end::{write_end, write_end_line};
pub use listing::write_code;
pub use marks::write_marks;
