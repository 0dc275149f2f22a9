//! The compiler from a source to its resolved program, its marks and its code, and the texts of its refusals.
#![tactic(auto)]

mod compiled;
mod laws;
mod refusal;
mod refused;
mod source;
mod unbuilt;

pub use compiled::{Compiled, compile};
pub use laws::{accepted_sources, one_answer};
pub use refusal::Refusal;
pub use refused::write_refusal;
pub use source::program;
