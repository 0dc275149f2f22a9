// Least numbers of boundaries for each read. Reads of one object and one section have the same writes, so they are one
// class with one search.
ghost use Rattle.std.specs.Prelude.{◌≡◌, ◌↔◌, ◌⊎◌, ℕ, ◌+◌, ◌-◌, ◌<◌, ◌≤◌, Decides, true, false, length, slice_index, List, Bool, replicate, IfOk, OnOk};
ghost use Rattle.cdc_path.specs.PathExpr.{PathExpr};
ghost use Rattle.cdc_path.specs.declared.point.Point.TheVariants.{Read};
ghost use Rattle.cdc_flow.specs.Flow.{IsFlow};
ghost use Rattle.cdc_mark.specs.Least.{IsIn, IsGraph, IsLeast};
ghost use Rattle.cdc_mark.specs.Marked.{AreLate};
ghost use Rattle.cdc_mark.specs.Seen.{SameObject, Meets};
ghost use Rattle.cdc_mark.specs.Classes.{IsWriteAt, IsReadAt, IsNoted, IsWriteFor, AreAlike, IsReadOf, HaveRoom, IsLowered, DistanceOf, CountsAny, IsOfClass, IsPassed, AreLeastDone, AreLeastNext};

use crate::bits::{has_bit, no_bits, set_bit};
use crate::marked::distances;
use crate::references::Reference;
use cdc_base::NoMemory;
use cdc_flow::{FlowGraph, Point};
use cdc_num::Triplet;
use cdc_section::overlap;
use std::alloc::Global;

// A number that is no less, and above a site.
fn raised(room: usize, site: u32) -> usize
    ensures room { room ≤ result }
    ensures site { site < result }
{
    let above = site as usize + 1;
    if room < above { above } else { room }
}

/// One more than the greatest site of references.
pub fn room(refs: &[Reference]) -> usize
    ensures { HaveRoom refs.now result }
{
    let mut room = 0;
    for q in refs {
        room = raised(room, q.site);
    }
    room
}

// Whether two references have one object.
fn same_object(a: Option<u32>, b: Option<u32>) -> bool
    ensures { Decides result (SameObject a b) }
{
    match (a, b) {
        (Some(m), Some(n)) => m == n,
        _ => false,
    }
}

// Whether a write touches what a read reads.
fn meets(p: &Reference, q: &Reference) -> bool
    ensures { Decides result (Meets p.now q.now) }
{
    same_object(q.object, p.object) && overlap(&q.section, &p.section)
}

fn same_triplet(t: Triplet, u: Triplet) -> bool
    ensures { Decides result (t ≡ u) }
{
    t.lo == u.lo && t.hi == u.hi && t.step == u.step
}

fn same_triplets(ts: &[Triplet], us: &[Triplet]) -> bool
    ensures { Decides result (ts.now ≡ us.now) }
{
    match ts {
        [] => us.is_empty(),
        [t, rest @ ..] => match us {
            [] => false,
            [u, more @ ..] => same_triplet(*t, *u) && same_triplets(rest, more),
        },
    }
}

// Whether two objects are equal, or there is none.
fn equal_objects(a: Option<u32>, b: Option<u32>) -> bool
    ensures { Decides result (a ≡ b) }
{
    match (a, b) {
        (Some(m), Some(n)) => m == n,
        (None, None) => true,
        _ => false,
    }
}

// Whether two references have one object, or none, and one section.
fn is_alike(p: &Reference, q: &Reference) -> bool
    ensures { Decides result (AreAlike p.now q.now) }
{
    equal_objects(q.object, p.object) && same_triplets(q.section.as_slice(), p.section.as_slice())
}

// Adds the site of a write that meets a read.
fn add_write(bits: &mut [bool], p: &Reference, q: &Reference)
    requires { q.now.site < length bits.old }
    ensures count { length bits.new ≡ length bits.old }
    ensures bits { (w : ℕ) → IsIn bits.new w ↔ (IsIn bits.old w ⊎ IsWriteAt p.now w q.now) }
{
    if q.writes && meets(p, q) {
        set_bit(bits, q.site as usize);
    }
}

// Adds the sites of the writes that meet a read.
fn add_writes(bits: &mut [bool], refs: &[Reference], p: &Reference)
    requires { HaveRoom refs.now (length bits.old) }
    ensures count { length bits.new ≡ length bits.old }
    ensures bits { (w : ℕ) → IsIn bits.new w ↔ (IsIn bits.old w ⊎ IsWriteFor refs.now p.now w) }
{
    for q in refs {
        add_write(bits, p, q);
    }
}

// Adds the site of a read of a class.
fn add_read(bits: &mut [bool], p: &Reference, q: &Reference)
    requires { q.now.site < length bits.old }
    ensures count { length bits.new ≡ length bits.old }
    ensures bits { (r : ℕ) → IsIn bits.new r ↔ (IsIn bits.old r ⊎ IsReadAt p.now r q.now) }
{
    if !q.writes && is_alike(p, q) {
        set_bit(bits, q.site as usize);
    }
}

// Adds the sites of the reads of a class.
fn add_reads(bits: &mut [bool], refs: &[Reference], p: &Reference)
    requires { HaveRoom refs.now (length bits.old) }
    ensures count { length bits.new ≡ length bits.old }
    ensures bits { (r : ℕ) → IsIn bits.new r ↔ (IsIn bits.old r ⊎ IsReadOf refs.now p.now r) }
{
    for q in refs {
        add_read(bits, p, q);
    }
}

// Notes that a read of a class is done.
fn add_done(done: &mut [bool], at: usize, p: &Reference, q: &Reference)
    requires { at < length done.old }
    ensures count { length done.new ≡ length done.old }
    ensures bits { (i : ℕ) → IsIn done.new i ↔ (IsIn done.old i ⊎ ((i ≡ at) × (q.now.writes ≡ false) × AreAlike p.now q.now)) }
{
    if !q.writes && is_alike(p, q) {
        set_bit(done, at);
    }
}

// Notes that the reads of a class are done.
fn finish(refs: &[Reference], p: &Reference, done: &mut [bool])
    requires { length done.old ≡ length refs.now }
    ensures count { length done.new ≡ length done.old }
    ensures bits { (i : ℕ) → IsIn done.new i ↔ (IsIn done.old i ⊎ IsOfClass refs.now p.now i) }
{
    for at in 0..refs.len() {
        add_done(done, at, p, &refs[at]);
    }
}

// Lowers the least distance of a read at a point.
fn note(best: &mut [u16], reads: &[bool], point: Point, distance: u16)
    ensures count { length best.new ≡ length best.old }
    ensures noted { (r : ℕ) → r < length best.old → IsNoted reads.now point r distance (slice_index best.old r) (slice_index best.new r) }
{
    if let Point::Read(site) = point {
        let r = site as usize;
        if r < best.len() && has_bit(reads, r) && distance < best[r] {
            best[r] = distance;
        }
    }
}

// Lowers the least distances of reads by those of their points.
fn lower_all(best: &mut [u16], reads: &[bool], points: &[Point], dist: &[u16])
    requires { length dist.now ≡ length points.now }
    ensures count { length best.new ≡ length best.old }
    ensures lowered { (r : ℕ) → r < length best.old → IsLowered (slice_index best.old r) (slice_index best.new r) (λ d. IsIn reads.now r × DistanceOf points.now dist.now (length points.now) r d) }
{
    for at in 0..points.len() {
        note(best, reads, points[at], dist[at]);
    }
}

// Whether a bit is set.
fn any_bit(bits: &[bool]) -> bool
    ensures { result ≡ false → (w : ℕ) → IsIn bits.now w → ⊥ }
{
    for bit in bits {
        if *bit {
            return true;
        }
    }
    false
}

// The sites of the writes that meet a read.
fn writes_for(
    alloc: Global,
    refs: &[Reference],
    p: &Reference,
    room: usize,
) -> Result<Vec<bool>, NoMemory>
    requires { HaveRoom refs.now room }
    ensures { IfOk result (λ bits. (w : ℕ) → IsIn bits.items w ↔ IsWriteFor refs.now p.now w) }
{
    let mut bits = no_bits(alloc, room)?;
    add_writes(&mut bits, refs, p);
    Ok(bits)
}

// The sites of the reads of a class.
fn reads_of(
    alloc: Global,
    refs: &[Reference],
    p: &Reference,
    room: usize,
) -> Result<Vec<bool>, NoMemory>
    requires { HaveRoom refs.now room }
    ensures { IfOk result (λ bits. (r : ℕ) → IsIn bits.items r ↔ IsReadOf refs.now p.now r) }
{
    let mut bits = no_bits(alloc, room)?;
    add_reads(&mut bits, refs, p);
    Ok(bits)
}

// Lowers the least distances of the reads of one class.
fn search_class(
    alloc: Global,
    g: &FlowGraph,
    late: &[bool],
    refs: &[Reference],
    p: &Reference,
    best: &mut [u16],
) -> Result<(), NoMemory>
    requires count { length late.now ≡ length g.now.points }
    requires late { AreLate g.now late.now }
    requires graph { IsGraph g.now }
    requires room { HaveRoom refs.now (length best.old) }
    ensures count { length best.new ≡ length best.old }
    ensures least { OnOk result ((c : PathExpr) (done : List Bool) → IsFlow c g.now → AreLeastDone c refs.now done best.old → AreLeastNext c refs.now done p.now best.new) }
{
    let writes = writes_for(alloc, refs, p, best.len())?;
    if any_bit(&writes) {
        let reads = reads_of(alloc, refs, p, best.len())?;
        let dist = distances(alloc, g, late, &writes)?;
        lower_all(best, &reads, g.points.as_slice(), &dist);
    }
    Ok(())
}

// Whether a reference is a read that is not done.
fn is_left(q: &Reference, done: &[bool], at: usize) -> bool
    ensures { result ≡ false → q.now.writes ≡ false → IsIn done.now at }
{
    !q.writes && !has_bit(done, at)
}

// Searches the class of a reference, where it is a read that is not done.
fn search_next(
    alloc: Global,
    g: &FlowGraph,
    late: &[bool],
    refs: &[Reference],
    at: usize,
    done: &mut [bool],
    best: &mut [u16],
) -> Result<(), NoMemory>
    requires count { length late.now ≡ length g.now.points }
    requires late { AreLate g.now late.now }
    requires graph { IsGraph g.now }
    requires room { HaveRoom refs.now (length best.old) }
    requires at { at < length refs.now }
    requires done { length done.old ≡ length refs.now }
    ensures count { length best.new ≡ length best.old }
    ensures done { length done.new ≡ length done.old }
    ensures least { OnOk result ((c : PathExpr) → IsFlow c g.now → AreLeastDone c refs.now done.old best.old → AreLeastDone c refs.now done.new best.new) }
    ensures passed { OnOk result ((i : ℕ) → IsPassed refs.now done.old at i → IsPassed refs.now done.new (at + 1) i) }
{
    let p = &refs[at];
    if is_left(p, done, at) {
        search_class(alloc, g, late, refs, p, best)?;
        finish(refs, p, done);
    }
    Ok(())
}

// Searches the classes of all reads.
fn search_all(
    alloc: Global,
    g: &FlowGraph,
    late: &[bool],
    refs: &[Reference],
    done: &mut [bool],
    best: &mut [u16],
) -> Result<(), NoMemory>
    requires count { length late.now ≡ length g.now.points }
    requires late { AreLate g.now late.now }
    requires graph { IsGraph g.now }
    requires room { HaveRoom refs.now (length best.old) }
    requires done { length done.old ≡ length refs.now }
    ensures count { length best.new ≡ length best.old }
    ensures least { OnOk result ((c : PathExpr) → IsFlow c g.now → AreLeastDone c refs.now done.old best.old → (r : ℕ) → r < length best.new → IsLeast (CountsAny c refs.now r) (slice_index best.new r)) }
{
    for at in 0..refs.len() {
        search_next(alloc, g, late, refs, at, done, best)?;
    }
    Ok(())
}

/// For each site of a read the least number, less 1, of boundaries over which a write counts for it, cut at 255, or 256
/// where none counts.
///
/// # Errors
///
/// Want of memory.
pub fn least_numbers(
    alloc: Global,
    g: &FlowGraph,
    late: &[bool],
    refs: &[Reference],
    room: usize,
) -> Result<Vec<u16>, NoMemory>
    requires count { length late.now ≡ length g.now.points }
    requires late { AreLate g.now late.now }
    requires graph { IsGraph g.now }
    requires room { HaveRoom refs.now room }
    ensures count { IfOk result (λ best. length best.items ≡ room) }
    ensures least { IfOk result (λ best. (c : PathExpr) → IsFlow c g.now → (r : ℕ) → r < room → IsLeast (CountsAny c refs.now r) (slice_index best.items r)) }
{
    let mut best = all_far(alloc, room)?;
    let mut done = no_bits(alloc, refs.len())?;
    search_all(alloc, g, late, refs, &mut done, &mut best)?;
    Ok(best)
}

// Distances where there is no way.
fn all_far(alloc: Global, count: usize) -> Result<Vec<u16>, NoMemory>
    ensures { IfOk result (λ dist. dist.items ≡ replicate count 256) }
{
    let dist = vec![in alloc; 256u16; count]?;
    Ok(dist)
}
