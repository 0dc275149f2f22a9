//! The paths through a program under its call paths, and what they make of marks and written lists: definitions alone.
//!
//! `specs/` has the paths (`PathExpr`), those of statements and programs (`Courses`), what their points refer to
//! (`References`), and marks and lists (`Marks`, `Covers`).
#![tactic(auto)]

pub mod laws;
mod point;

pub use point::Point;
