//! The memory side of the simulated machine behind one trait, the calls that may be made on it in order, and a memory
//! without caches.
#![tactic(auto)]

mod counts;
mod fabric;
mod uncached;

pub use counts::{Access, Counts};
pub use fabric::Fabric;
pub use uncached::Uncached;
