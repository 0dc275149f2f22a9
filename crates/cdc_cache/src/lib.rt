//! The processors' caches under any scheme, and the memory side that they make with memory.
#![tactic(auto)]

mod cache;
mod caches;
mod fill;
mod laws;
mod line;
mod miss;
mod read;
mod set;

pub use cache::Cache;
pub use caches::Caches;
pub use cdc_fabric::{Access, Counts, Fabric};
pub use laws::hits_give_memory;
pub use line::{Copied, Line, Words};
