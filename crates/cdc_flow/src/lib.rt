//! The flow graph of a unit: its points, and edges between them whose paths are those of the unit.
#![tactic(auto)]

mod builder;
mod calls;
mod expressions;
mod graph;
mod statements;
mod unit_flow;

pub use cdc_path::Point;
pub use graph::{Edge, FlowGraph};
pub use unit_flow::flow;
