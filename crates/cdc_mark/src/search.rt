// A search for least distances: the edges are gone through until none lowers a distance.
ghost use Rattle.std.specs.Prelude.{◌≡◌, ◌↔◌, ◌<◌, IsTrue, true, false, Bool, List, length, map, sum, slice_index_or, IfOk};
ghost use Rattle.std.specs.List.{All};
ghost use Rattle.cdc_path.specs.PathExpr.{crosses};
ghost use Rattle.cdc_flow.specs.declared.graph.Edge.{Edge};
ghost use Rattle.cdc_mark.specs.Least.{over, starts, IsIn, IsGraph, Fair, Relaxed, AreLeast, AreFirsts, AreFar, ArePlain};

use cdc_base::NoMemory;
use cdc_flow::{FlowGraph, Point};
use std::alloc::Global;

// A distance with a boundary more where the point is one.
fn past(distance: u16, point: Point) -> u16
    ensures { result ≡ over distance (crosses point) }
{
    if distance > 255 {
        return 256;
    }
    match point {
        Point::Entry(_) | Point::Exit(_) => (distance + 1).min(255),
        _ => distance,
    }
}

// Lowers the distance to which an edge leads, and says whether it did.
fn lower(graph: &FlowGraph, at: usize, dist: &mut [u16]) -> bool
    requires graph { IsGraph graph.now }
    requires count { length dist.old ≡ length graph.now.points }
    requires at { at < length graph.now.edges }
    ensures fair { (sources : List Bool) → Fair graph.now (IsIn sources) dist.old → Fair graph.now (IsIn sources) dist.new }
    ensures lowered { result ≡ true → sum dist.new < sum dist.old }
    ensures same { result ≡ false → dist.new ≡ dist.old }
    ensures relaxed { result ≡ false → (d : Edge) → Relaxed graph.now dist.old (slice_index_or graph.now.edges at d) }
{
    let edges = graph.edges.as_slice();
    let points = graph.points.as_slice();
    let edge = edges[at];
    let point = points[edge.to as usize];
    let distance = past(dist[edge.from as usize], point);
    let lowered = distance < dist[edge.to as usize];
    if lowered {
        dist[edge.to as usize] = distance;
    }
    lowered
}

// Lowers distances along the edges, each once, and says whether one was lowered.
fn sweep(graph: &FlowGraph, dist: &mut [u16]) -> bool
    requires graph { IsGraph graph.now }
    requires count { length dist.old ≡ length graph.now.points }
    ensures fair { (sources : List Bool) → Fair graph.now (IsIn sources) dist.old → Fair graph.now (IsIn sources) dist.new }
    ensures lowered { result ≡ true → sum dist.new < sum dist.old }
    ensures relaxed { result ≡ false → All (Relaxed graph.now dist.new) graph.now.edges }
{
    let mut lowered = false;
    for at in 0..graph.edges.as_slice().len() {
        if lower(graph, at, dist) {
            lowered = true;
        }
    }
    lowered
}

// The distances at the start: 0 at a source, and far elsewhere.
fn starting(alloc: Global, sources: &[bool]) -> Result<Vec<u16>, NoMemory>
    ensures { IfOk result (λ dist. dist.items ≡ map starts sources.now) }
{
    let mut dist = Vec::new(alloc);
    for source in sources {
        dist.push(if *source { 0 } else { 256 })?;
    }
    Ok(dist)
}

// Lowers distances along the edges until none lowers one.
fn settle(graph: &FlowGraph, dist: &mut [u16])
    requires graph { IsGraph graph.now }
    requires count { length dist.old ≡ length graph.now.points }
    ensures fair { (sources : List Bool) → Fair graph.now (IsIn sources) dist.old → Fair graph.now (IsIn sources) dist.new }
    ensures relaxed { All (Relaxed graph.now dist.new) graph.now.edges }
{
    while sweep(graph, dist) {}
}

/// The least number of boundaries that come after a source on a way to each vertex, cut at 255, or 256 where there is no way.
pub fn reach(alloc: Global, graph: &FlowGraph, sources: &[bool]) -> Result<Vec<u16>, NoMemory>
    requires graph { IsGraph graph.now }
    requires count { length sources.now ≡ length graph.now.points }
    ensures count { IfOk result (λ dist. length dist.items ≡ length graph.now.points) }
    ensures least { IfOk result (λ dist. AreLeast graph.now (IsIn sources.now) dist.items) }
{
    let mut dist = starting(alloc, sources)?;
    settle(graph, &mut dist);
    Ok(dist)
}

// Whether a point is a boundary.
fn is_boundary(point: Point) -> bool
    ensures { IsTrue result ↔ (crosses point ≡ 1) }
{
    match point {
        Point::Entry(_) | Point::Exit(_) => true,
        _ => false,
    }
}

// The boundaries whose distance is 1.
pub(crate) fn firsts(alloc: Global, graph: &FlowGraph, dist: &[u16]) -> Result<Vec<bool>, NoMemory>
    requires count { length dist.now ≡ length graph.now.points }
    ensures count { IfOk result (λ bits. length bits.items ≡ length graph.now.points) }
    ensures firsts { IfOk result (λ bits. AreFirsts graph.now dist.now bits.items) }
{
    let mut bits = Vec::new(alloc);
    for at in 0..graph.points.as_slice().len() {
        bits.push(is_boundary(graph.points.as_slice()[at]) && dist[at] == 1)?;
    }
    Ok(bits)
}

/// The least number of boundaries, less 1, that come after a source on a way with a boundary to each vertex, cut at 255, or 256 where there is no such way.
pub fn far(alloc: Global, graph: &FlowGraph, sources: &[bool]) -> Result<Vec<u16>, NoMemory>
    requires graph { IsGraph graph.now }
    requires count { length sources.now ≡ length graph.now.points }
    requires plain { ArePlain graph.now (IsIn sources.now) }
    ensures count { IfOk result (λ dist. length dist.items ≡ length graph.now.points) }
    ensures far { IfOk result (λ dist. AreFar graph.now (IsIn sources.now) dist.items) }
{
    let near = reach(alloc, graph, sources)?;
    let bits = firsts(alloc, graph, &near)?;
    let dist = reach(alloc, graph, &bits)?;
    Ok(dist)
}
