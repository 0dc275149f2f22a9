//! Tasks of the simulated processors: a serial stretch of a program or one iteration of a DOALL, each an instruction at a
//! time over a port to memory; and a program carried out on one memory.
#![tactic(auto)]

mod calls;
mod end;
pub mod laws;
mod loops;
mod memory;
mod operators;
mod parts;
mod place;
mod port;
mod run;
mod step;
mod streams;
mod task;
mod values;
mod words;

pub use cdc_prog::{FaultKind, Mark, Piece, Plain};
pub use end::StepEnd;
pub use place::Place;
pub use port::Port;
pub use run::run_alone;
pub use task::Task;
