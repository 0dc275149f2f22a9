// The marks of a program.
ghost use Rattle.std.specs.Prelude.{◌≡◌, if◌then◌else◌, IfOk};
ghost use Rattle.cdc_prog.specs.declared.program.Mark.TheVariants.{Ordinary};
ghost use Rattle.cdc_prog.specs.Resolved.{IsResolved, HasNoCall};
ghost use Rattle.cdc_prog.specs.Translation.{program_of};
ghost use Rattle.cdc_path.specs.Marks.{AreMarks};
ghost use Rattle.cdc_flow.specs.Flow.{IsFlow};
ghost use Rattle.cdc_mark.specs.Marked.{mark_of, IsMarkAt, AreMarksAt};
ghost use Rattle.cdc_mark.specs.Seen.{main_course, main_refs};

use crate::bits::has_bit;
use crate::classes::{least_numbers, room};
use crate::covers::covered;
use crate::marked::late;
use crate::references::{Reference, main_references};
use crate::written::written_lists;
use cdc_base::{List, NoMemory};
use cdc_flow::{FlowGraph, flow};
use cdc_prog::{Mark, Marks, Program};
use std::alloc::Global;

// The mark of a distance.
#[tactic(auto, using(crate::proofs::Marking::near_mark, crate::proofs::Marking::far_mark))]
fn made_mark(distance: u16) -> Mark
    ensures { result ≡ mark_of distance }
{
    if distance <= 255 {
        Mark::Time((distance + 1).min(255) as u8)
    } else {
        Mark::Ordinary
    }
}

// The mark of a distance, where there is no cover.
fn bare_mark(distance: u16, is_covered: bool) -> Mark
    ensures { result ≡ (if is_covered then Ordinary else mark_of distance) }
{
    if is_covered {
        Mark::Ordinary
    } else {
        made_mark(distance)
    }
}

// The mark of the read at a site.
fn mark_at(best: &[u16], covered: &[bool], site: usize) -> Mark
    ensures { IsMarkAt best.now covered.now site result }
{
    if site < best.len() {
        bare_mark(best[site], has_bit(covered, site))
    } else {
        Mark::Ordinary
    }
}

// The marks of sites in order.
fn read_marks(
    alloc: Global,
    best: &[u16],
    covered: &[bool],
    sites: u32,
) -> Result<List<Mark>, NoMemory>
    ensures { IfOk result (AreMarksAt best.now covered.now sites) }
{
    let mut marks = Vec::new(alloc);
    for at in 0..sites as usize {
        let mark = mark_at(best, covered, at + 1);
        marks.push(mark)?;
    }
    Ok(List::of(marks))
}

// The marks of a program with this flow graph and these references of its main unit.
fn marks_of(
    alloc: Global,
    program: &Program,
    g: &FlowGraph,
    refs: &[Reference],
) -> Result<Marks, NoMemory>
    requires resolved { IsResolved (program_of program.now) }
    requires calls { HasNoCall (program_of program.now) }
    requires flow { IsFlow (main_course (program_of program.now)) g.now }
    requires refs { refs.now ≡ main_refs (program_of program.now) }
    ensures { IfOk result (AreMarks (program_of program.now)) }
{
    let late = late(alloc, g)?;
    let room = room(refs);
    let best = least_numbers(alloc, g, &late, refs, room)?;
    let covered = covered(alloc, program, room)?;
    let lists = written_lists(alloc, g, refs, room, program.doalls)?;
    let reads = read_marks(alloc, &best, &covered, program.sites)?;
    Ok(Marks {
        reads,
        entries: lists.entries,
        exits: lists.exits,
    })
}

/// The marks of a program's reads, and the objects that are written before each boundary.
///
/// # Errors
///
/// Memory ran out.
pub fn marks(alloc: Global, program: &Program) -> Result<Marks, NoMemory>
    requires resolved { IsResolved (program_of program.now) }
    requires calls { HasNoCall (program_of program.now) }
    ensures { IfOk result (AreMarks (program_of program.now)) }
{
    let g = flow(alloc, program, program.main)?;
    let refs = main_references(alloc, program)?;
    marks_of(alloc, program, &g, &refs)
}
