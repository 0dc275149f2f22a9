// Written lists.
ghost use Rattle.std.specs.Prelude.{◌≡◌, ◌↔◌, ◌⊎◌, ℕ, ◌^◌, ◌<◌, ◌≤◌, Decides, IsTrue, length, IfOk, OnOk, Some};
ghost use Rattle.cdc_path.specs.PathExpr.{PathExpr};
ghost use Rattle.cdc_path.specs.declared.point.Point.TheVariants.{Entry, Exit};
ghost use Rattle.cdc_flow.specs.Flow.{IsFlow};
ghost use Rattle.cdc_mark.specs.Least.{IsIn, IsGraph};
ghost use Rattle.cdc_mark.specs.Lists.{AreReached, AreWritten};
ghost use Rattle.cdc_mark.specs.Classes.{HaveRoom, IsWriteOfAt, IsWriteOf};
ghost use Rattle.cdc_mark.specs.Rows.{IsBelow, AreBelow, place_of, HasPlace, IsRow, AreRows, with_object, IsColumn, AreColumns, AreListed};

use crate::bits::{has_bit, no_bits, set_bit};
use crate::marked::{only_start, reached, sources};
use crate::references::Reference;
use crate::search::{firsts, reach};
use cdc_affine::add;
use cdc_base::{List, NoMemory};
use cdc_flow::{FlowGraph, Point};
use std::alloc::Global;

// The points that the start leads to.
fn led_to(alloc: Global, g: &FlowGraph) -> Result<Vec<bool>, NoMemory>
    requires start { g.now.start < length g.now.points }
    requires graph { IsGraph g.now }
    ensures count { IfOk result (λ bits. length bits.items ≡ length g.now.points) }
    ensures reached { IfOk result (λ bits. AreReached g.now bits.items) }
{
    let start = only_start(alloc, g)?;
    let dist = reach(alloc, g, &start)?;
    let bits = reached(alloc, &dist)?;
    Ok(bits)
}

// The boundaries to which a write that is wanted leads with no boundary between.
fn written(
    alloc: Global,
    g: &FlowGraph,
    led_to: &[bool],
    wanted: &[bool],
) -> Result<Vec<bool>, NoMemory>
    requires count { length led_to.now ≡ length g.now.points }
    requires reached { AreReached g.now led_to.now }
    requires graph { IsGraph g.now }
    ensures count { IfOk result (λ bits. length bits.items ≡ length g.now.points) }
    ensures written { IfOk result (λ bits. AreWritten g.now wanted.now bits.items) }
{
    let sources = sources(alloc, g, led_to, wanted)?;
    let near = reach(alloc, g, &sources)?;
    let bits = firsts(alloc, g, &near)?;
    Ok(bits)
}

// A number that is no less, and above an object.
fn raised_above(room: usize, object: Option<u32>) -> usize
    requires { room ≤ 2 ^ 32 }
    ensures room { room ≤ result }
    ensures object { IsBelow object result }
    ensures bound { result ≤ 2 ^ 32 }
{
    match object {
        Some(k) => room.max(k as usize + 1),
        None => room,
    }
}

// One more than the greatest object of references.
fn object_room(refs: &[Reference]) -> usize
    ensures room { AreBelow refs.now result }
    ensures bound { result ≤ 2 ^ 32 }
{
    let mut room = 0;
    for q in refs {
        room = raised_above(room, q.object);
    }
    room
}

// Adds the site of a write of an object.
fn add_write_of(bits: &mut [bool], object: usize, q: &Reference)
    requires { q.now.site < length bits.old }
    ensures count { length bits.new ≡ length bits.old }
    ensures bits { (w : ℕ) → IsIn bits.new w ↔ (IsIn bits.old w ⊎ IsWriteOfAt object w q.now) }
{
    if q.writes && is_of(q.object, object) {
        set_bit(bits, q.site as usize);
    }
}

fn is_of(object: Option<u32>, wanted: usize) -> bool
    ensures { Decides result (object ≡ Some wanted) }
{
    match object {
        Some(k) => k as usize == wanted,
        None => false,
    }
}

// Adds the sites of the writes of an object.
fn add_writes_of(bits: &mut [bool], refs: &[Reference], object: usize)
    requires { HaveRoom refs.now (length bits.old) }
    ensures count { length bits.new ≡ length bits.old }
    ensures bits { (w : ℕ) → IsIn bits.new w ↔ (IsIn bits.old w ⊎ IsWriteOf refs.now object w) }
{
    for q in refs {
        add_write_of(bits, object, q);
    }
}

// The sites of the writes of an object.
fn writes_of(
    alloc: Global,
    refs: &[Reference],
    object: usize,
    room: usize,
) -> Result<Vec<bool>, NoMemory>
    requires { HaveRoom refs.now room }
    ensures { IfOk result (λ bits. (w : ℕ) → IsIn bits.items w ↔ IsWriteOf refs.now object w) }
{
    let mut bits = no_bits(alloc, room)?;
    add_writes_of(&mut bits, refs, object);
    Ok(bits)
}

// The place of a boundary: before the exit of a DOALL that of its entry.
fn place_of(point: Point) -> Option<usize>
    ensures { result ≡ place_of point }
{
    match point {
        Point::Entry(number) => Some(2 * number as usize),
        Point::Exit(number) => Some(2 * number as usize + 1),
        _ => None,
    }
}

// Sets the bit of a boundary's place.
fn set_place(row: &mut [bool], point: Point)
    ensures count { length row.new ≡ length row.old }
    ensures bits { (n : ℕ) → IsIn row.new n ↔ (IsIn row.old n ⊎ ((place_of point ≡ Some n) × (n < length row.old))) }
{
    if let Some(place) = place_of(point) {
        set_bit(row, place);
    }
}

// Sets the bit of a boundary's place, if that of the boundary is set.
fn add_place(row: &mut [bool], point: Point, is_set: bool)
    ensures count { length row.new ≡ length row.old }
    ensures bits { (n : ℕ) → IsIn row.new n ↔ (IsIn row.old n ⊎ (IsTrue is_set × (place_of point ≡ Some n) × (n < length row.old))) }
{
    if is_set {
        set_place(row, point);
    }
}

// Sets the bits of the places of the boundaries whose bits are set.
fn add_places(row: &mut [bool], points: &[Point], bits: &[bool])
    ensures count { length row.new ≡ length row.old }
    ensures bits { (n : ℕ) → IsIn row.new n ↔ (IsIn row.old n ⊎ HasPlace points.now bits.now (length points.now) (length row.old) n) }
{
    for at in 0..points.len() {
        add_place(row, points[at], has_bit(bits, at));
    }
}

// The places of the boundaries whose bits are set.
fn places_of(
    alloc: Global,
    points: &[Point],
    bits: &[bool],
    places: usize,
) -> Result<Vec<bool>, NoMemory>
    ensures { IfOk result (λ row. (n : ℕ) → IsIn row.items n ↔ HasPlace points.now bits.now (length points.now) places n) }
{
    let mut row = no_bits(alloc, places)?;
    add_places(&mut row, points, bits);
    Ok(row)
}

// The places of the boundaries to which a write of an object leads.
fn row_of(
    alloc: Global,
    g: &FlowGraph,
    led_to: &[bool],
    refs: &[Reference],
    object: usize,
    room: usize,
    places: usize,
) -> Result<List<bool>, NoMemory>
    requires count { length led_to.now ≡ length g.now.points }
    requires reached { AreReached g.now led_to.now }
    requires graph { IsGraph g.now }
    requires room { HaveRoom refs.now room }
    ensures { IfOk result (λ row. (c : PathExpr) → IsFlow c g.now → IsRow c refs.now object places row) }
{
    let wanted = writes_of(alloc, refs, object, room)?;
    let bits = written(alloc, g, led_to, &wanted)?;
    let row = places_of(alloc, g.points.as_slice(), &bits, places)?;
    Ok(List::of(row))
}

// The rows of the first objects.
fn rows_of(
    alloc: Global,
    g: &FlowGraph,
    refs: &[Reference],
    objects: usize,
    room: usize,
    places: usize,
) -> Result<Vec<List<bool>>, NoMemory>
    requires start { g.now.start < length g.now.points }
    requires graph { IsGraph g.now }
    requires room { HaveRoom refs.now room }
    ensures count { IfOk result (λ rows. length rows.items ≡ objects) }
    ensures rows { IfOk result (λ rows. (c : PathExpr) → IsFlow c g.now → AreRows c refs.now places (length rows.items) rows.items) }
{
    let led_to = led_to(alloc, g)?;
    let mut rows = Vec::new(alloc);
    for object in 0..objects {
        let row = row_of(alloc, g, &led_to, refs, object, room, places)?;
        rows.push(row)?;
    }
    Ok(rows)
}

// Adds an object, if it is one of the list.
fn add_object(list: &mut List<u32>, object: usize, is_set: bool) -> Result<(), NoMemory>
    requires { object < 2 ^ 32 }
    ensures { OnOk result (list.new ≡ with_object is_set object list.old) }
{
    if is_set {
        add(list, object as u32)?;
    }
    Ok(())
}

// The objects in whose rows the bit of a place is set.
fn objects_at(alloc: Global, rows: &[List<bool>], place: usize) -> Result<List<u32>, NoMemory>
    requires { length rows.now ≤ 2 ^ 32 }
    ensures { IfOk result (IsColumn rows.now place (length rows.now)) }
{
    let mut list = List::new(alloc);
    for at in 0..rows.len() {
        let is_set = has_bit(rows[at].as_slice(), place);
        add_object(&mut list, at, is_set)?;
    }
    Ok(list)
}

// The objects of the places of each DOALL: of its entry, or of its exit where `side` is 1.
fn columns(
    alloc: Global,
    rows: &[List<bool>],
    doalls: u32,
    side: usize,
) -> Result<List<List<u32>>, NoMemory>
    requires rows { length rows.now ≤ 2 ^ 32 }
    requires side { side ≤ 1 }
    ensures { IfOk result (AreColumns rows.now side doalls) }
{
    let mut lists = List::new(alloc);
    for at in 0..doalls as usize {
        let list = objects_at(alloc, rows, 2 * (at + 1) + side)?;
        add(&mut lists, list)?;
    }
    Ok(lists)
}

/// The written lists of the entries and of the exits.
#[derive(Drop)]
pub struct Lists {
    pub entries: List<List<u32>>,
    pub exits: List<List<u32>>,
}

/// For the entry and the exit of each DOALL the objects of which a write leads to it.
///
/// # Errors
///
/// Want of memory.
pub fn written_lists(
    alloc: Global,
    g: &FlowGraph,
    refs: &[Reference],
    room: usize,
    doalls: u32,
) -> Result<Lists, NoMemory>
    requires start { g.now.start < length g.now.points }
    requires graph { IsGraph g.now }
    requires room { HaveRoom refs.now room }
    ensures entries { IfOk result (λ lists. (c : PathExpr) → IsFlow c g.now → AreListed c refs.now Entry doalls lists.entries) }
    ensures exits { IfOk result (λ lists. (c : PathExpr) → IsFlow c g.now → AreListed c refs.now Exit doalls lists.exits) }
{
    let rows = rows_of(
        alloc,
        g,
        refs,
        object_room(refs),
        room,
        2 * (doalls as usize + 1),
    )?;
    let entries = columns(alloc, &rows, doalls, 0)?;
    let exits = columns(alloc, &rows, doalls, 1)?;
    Ok(Lists { entries, exits })
}
