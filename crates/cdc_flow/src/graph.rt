use cdc_base::List;
use cdc_path::Point;

/// An edge from a point to a point, by their numbers from 0.
#[derive(Clone, Copy, Debug, PartialEq, Eq)]
pub struct Edge {
    pub from: u32,
    pub to: u32,
}

/// The flow graph of a unit, with the numbers of the points where it begins and ends.
#[derive(Debug, Drop)]
pub struct FlowGraph {
    pub points: List<Point>,
    pub edges: List<Edge>,
    pub start: u32,
    pub end: u32,
}
