// Points before which a boundary comes, and distances from writes.
ghost use Rattle.std.specs.Prelude.{◌≡◌, ◌↔◌, ℕ, ◌<◌, ◌≤◌, IsTrue, length, slice_index, IfOk};
ghost use Rattle.cdc_path.specs.declared.point.Point.TheVariants.{Plain, Write};
ghost use Rattle.cdc_flow.specs.Flow.{point_at};
ghost use Rattle.cdc_mark.specs.Least.{IsIn, IsGraph, AreFar};
ghost use Rattle.cdc_mark.specs.Marked.{IsSource, AreLate, AreSourcesOf, AreSources};

use crate::search::far;
use cdc_base::NoMemory;
use cdc_flow::{FlowGraph, Point};
use std::alloc::Global;

/// The start alone.
///
/// # Errors
///
/// Want of memory.
pub fn only_start(alloc: Global, g: &FlowGraph) -> Result<Vec<bool>, NoMemory>
    requires { g.now.start < length g.now.points }
    ensures count { IfOk result (λ bits. length bits.items ≡ length g.now.points) }
    ensures start { IfOk result (λ bits. (v : ℕ) → IsIn bits.items v ↔ (v ≡ g.now.start)) }
{
    let mut bits = Vec::new(alloc);
    for at in 0..g.points.as_slice().len() {
        bits.push(at == g.start as usize)?;
    }
    Ok(bits)
}

/// The points that have a distance.
///
/// # Errors
///
/// Want of memory.
pub fn reached(alloc: Global, dist: &[u16]) -> Result<Vec<bool>, NoMemory>
    ensures count { IfOk result (λ bits. length bits.items ≡ length dist.now) }
    ensures near { IfOk result (λ bits. (v : ℕ) → v < length dist.now → IsIn bits.items v ↔ (slice_index dist.now v ≤ 255)) }
{
    let mut bits = Vec::new(alloc);
    for at in 0..dist.len() {
        bits.push(dist[at] <= 255)?;
    }
    Ok(bits)
}

/// The points before which a boundary comes.
///
/// # Errors
///
/// Want of memory.
pub fn late(alloc: Global, g: &FlowGraph) -> Result<Vec<bool>, NoMemory>
    requires start { g.now.start < length g.now.points }
    requires plain { point_at g.now.points g.now.start ≡ Plain }
    requires graph { IsGraph g.now }
    ensures count { IfOk result (λ bits. length bits.items ≡ length g.now.points) }
    ensures late { IfOk result (λ bits. AreLate g.now bits.items) }
{
    let start = only_start(alloc, g)?;
    let dist = far(alloc, g, &start)?;
    let bits = reached(alloc, &dist)?;
    Ok(bits)
}

// Whether a point is a write that is wanted, and late.
fn is_source(point: Point, late: bool, wanted: &[bool]) -> bool
    ensures { IsTrue result ↔ ((w : ℕ) × (point ≡ Write w) × IsIn wanted.now w × IsTrue late) }
{
    match point {
        Point::Write(w) => late && (w as usize) < wanted.len() && wanted[w as usize],
        _ => false,
    }
}

// The late writes that are wanted, of these points.
fn source_bits(
    alloc: Global,
    points: &[Point],
    late: &[bool],
    wanted: &[bool],
) -> Result<Vec<bool>, NoMemory>
    requires { length late.now ≡ length points.now }
    ensures count { IfOk result (λ bits. length bits.items ≡ length points.now) }
    ensures sources { IfOk result (λ bits. AreSourcesOf points.now late.now wanted.now bits.items) }
{
    let mut bits = Vec::new(alloc);
    for at in 0..points.len() {
        bits.push(is_source(points[at], late[at], wanted))?;
    }
    Ok(bits)
}

/// The late writes that are wanted.
///
/// # Errors
///
/// Want of memory.
pub fn sources(
    alloc: Global,
    g: &FlowGraph,
    late: &[bool],
    wanted: &[bool],
) -> Result<Vec<bool>, NoMemory>
    requires { length late.now ≡ length g.now.points }
    ensures count { IfOk result (λ bits. length bits.items ≡ length g.now.points) }
    ensures sources { IfOk result (λ bits. AreSources g.now late.now wanted.now bits.items) }
{
    source_bits(alloc, g.points.as_slice(), late, wanted)
}

/// For each point the least number, less 1, of boundaries between a late write that is wanted and it, cut at 255, or 256
/// where there is none.
///
/// # Errors
///
/// Want of memory.
pub fn distances(
    alloc: Global,
    g: &FlowGraph,
    late: &[bool],
    wanted: &[bool],
) -> Result<Vec<u16>, NoMemory>
    requires count { length late.now ≡ length g.now.points }
    requires late { AreLate g.now late.now }
    requires graph { IsGraph g.now }
    ensures count { IfOk result (λ dist. length dist.items ≡ length g.now.points) }
    ensures far { IfOk result (λ dist. AreFar g.now (IsSource g.now wanted.now) dist.items) }
{
    let bits = sources(alloc, g, late, wanted)?;
    let dist = far(alloc, g, &bits)?;
    Ok(dist)
}
