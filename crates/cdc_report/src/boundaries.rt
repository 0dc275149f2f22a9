// The lines on what is written before the boundaries of DOALLs.
ghost use Rattle.std.specs.Prelude.{◌≡◌, ◌++◌, codes, flat_map};
ghost use Rattle.cdc_base.specs.Gathered.{waiting};
ghost use Rattle.cdc_prog.specs.Translation.{stmt_of, stmts_of, arms_of};
ghost use Rattle.cdc_prog.specs.Plain.{Skip};
ghost use Rattle.cdc_text.specs.Pieces.{Gathers};
ghost use Rattle.cdc_report.specs.MarkLines.{object_text, list_text, boundary_line, written_at, loop_lines, loops};

use crate::operands::Named;
use cdc_base::{Gathered, List, Sink, SinkFault};
use cdc_prog::{Arm, Stmt, Var};
use cdc_text::{Text, gather_texts};
use std::marker::Model;

/// A DOALL: its number from 1 and its line.
#[derive(Clone, Copy)]
pub struct Loop {
    pub number: u32,
    pub line: u32,
}

/// What is named, and the written lists, one for each DOALL.
#[derive(Drop)]
pub struct Lists<'a> {
    pub named: Named<'a>,
    pub entries: &'a [List<u32>],
    pub exits: &'a [List<u32>],
}

impl<'a> Model for Lists<'a> {
    ghost use Rattle.cdc_report.specs.MarkLines.{Lists};

    ghost Value = { Lists };

    ghost view = { λ l. record { named = l.named; entries = l.entries.now; exits = l.exits.now } };
}

// The written list of a DOALL.
fn written_at<'a>(lists: &'a [List<u32>], number: u32) -> &'a [u32]
    ensures { result.now ≡ written_at lists.now number }
{
    match lists.get(number.saturating_sub(1) as usize) {
        Some(list) => list.as_slice(),
        None => &[],
    }
}

impl<'a> Lists<'a> {
    fn named(&self) -> &Named<'a>
        ensures { result.now ≡ self.now.named }
    {
        &self.named
    }

    fn entry(&self, number: u32) -> &'a [u32]
        ensures { result.now ≡ written_at self.now.entries number }
    {
        written_at(self.entries, number)
    }

    fn exit(&self, number: u32) -> &'a [u32]
        ensures { result.now ≡ written_at self.now.exits number }
    {
        written_at(self.exits, number)
    }
}

fn gather_objects<K: Sink>(
    out: &mut K,
    gathered: &mut Gathered,
    named: &Named,
    written: &[u32],
) -> Result<(), SinkFault>
    ensures { Gathers (flat_map (object_text named.now) written.now) result (K.taken out.old) (K.taken out.new) (waiting gathered.old) (waiting gathered.new) (K.faults out.old) (K.faults out.new) }
{
    for object in written {
        gather_texts(out, gathered, &named.of_variable(Var::Object(*object)))?;
    }
    Ok(())
}

fn gather_list<K: Sink>(
    out: &mut K,
    gathered: &mut Gathered,
    named: &Named,
    written: &[u32],
) -> Result<(), SinkFault>
    ensures { Gathers (list_text named.now written.now) result (K.taken out.old) (K.taken out.new) (waiting gathered.old) (waiting gathered.new) (K.faults out.old) (K.faults out.new) }
{
    if written.is_empty() {
        return gather_texts(out, gathered, &[Text::Words(b" none")]);
    }
    gather_objects(out, gathered, named, written)
}

// Gathers the line of a boundary.
fn gather_boundary<K: Sink>(
    out: &mut K,
    gathered: &mut Gathered,
    named: &Named,
    at: Loop,
    boundary: &[u8],
    written: &[u32],
) -> Result<(), SinkFault>
    ensures { Gathers (boundary_line named.now at boundary.now written.now) result (K.taken out.old) (K.taken out.new) (waiting gathered.old) (waiting gathered.new) (K.faults out.old) (K.faults out.new) }
{
    let head = [
        Text::Words(b"doall "),
        Text::Number(at.number as u64),
        Text::Words(b" line "),
        Text::Number(at.line as u64),
        Text::Words(boundary),
    ];
    gather_texts(out, gathered, &head)?;
    gather_list(out, gathered, named, written)?;
    gather_texts(out, gathered, &[Text::Words(b"\n")])
}

// Gathers the two lines of a DOALL.
fn gather_loop<K: Sink>(
    out: &mut K,
    gathered: &mut Gathered,
    lists: &Lists,
    at: Loop,
) -> Result<(), SinkFault>
    ensures { Gathers (loop_lines lists.now at) result (K.taken out.old) (K.taken out.new) (waiting gathered.old) (waiting gathered.new) (K.faults out.old) (K.faults out.new) }
{
    let entry = b" entry writes";
    gather_boundary(
        out,
        gathered,
        lists.named(),
        at,
        entry,
        lists.entry(at.number),
    )?;
    let exit = b" exit writes";
    gather_boundary(
        out,
        gathered,
        lists.named(),
        at,
        exit,
        lists.exit(at.number),
    )
}

#[cycle(loops)]
fn gather_loops_in<K: Sink>(
    out: &mut K,
    gathered: &mut Gathered,
    lists: &Lists,
    s: &Stmt,
) -> Result<(), SinkFault>
    ensures { Gathers (flat_map (loop_lines lists.now) (loops (stmt_of s.now))) result (K.taken out.old) (K.taken out.new) (waiting gathered.old) (waiting gathered.new) (K.faults out.old) (K.faults out.new) }
{
    match s {
        Stmt::If { arms, other } => {
            gather_arms(out, gathered, lists, arms)?;
            gather_loops(out, gathered, lists, other)
        }
        Stmt::Do { body, .. } => gather_loops(out, gathered, lists, body),
        Stmt::Doall {
            control,
            number,
            ..
        } => {
            let number = *number;
            let line = control.line;
            gather_loop(out, gathered, lists, Loop { number, line })
        }
        Stmt::Assign { .. } => Ok(()),
        Stmt::Call { .. } => Ok(()),
        Stmt::Print { .. } => Ok(()),
        Stmt::Read { .. } => Ok(()),
    }
}

#[cycle(loops)]
fn gather_arms<K: Sink>(
    out: &mut K,
    gathered: &mut Gathered,
    lists: &Lists,
    arms: &List<Arm>,
) -> Result<(), SinkFault>
    ensures { Gathers (flat_map (loop_lines lists.now) (loops (arms_of arms.now Skip))) result (K.taken out.old) (K.taken out.new) (waiting gathered.old) (waiting gathered.new) (K.faults out.old) (K.faults out.new) }
{
    for arm in arms.as_slice() {
        gather_loops(out, gathered, lists, &arm.body)?;
    }
    Ok(())
}

/// Gathers the lines of the DOALLs of statements.
#[cycle(loops)]
pub fn gather_loops<K: Sink>(
    out: &mut K,
    gathered: &mut Gathered,
    lists: &Lists,
    ss: &List<Stmt>,
) -> Result<(), SinkFault>
    ensures { Gathers (flat_map (loop_lines lists.now) (loops (stmts_of ss.now))) result (K.taken out.old) (K.taken out.new) (waiting gathered.old) (waiting gathered.new) (K.faults out.old) (K.faults out.new) }
{
    for s in ss.as_slice() {
        gather_loops_in(out, gathered, lists, s)?;
    }
    Ok(())
}
