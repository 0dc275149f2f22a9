//! The program units that statements are.
#![tactic(auto)]

mod blocks;
mod inside;
mod role;

pub use blocks::units;
