// Covers: reads of what the same run of statements has accessed just before.
ghost use Rattle.std.specs.Prelude.{◌≡◌, ◌↔◌, ◌⊎◌, ℕ, ◌<◌, [], ◌∷◌, ◌++◌, map, length, Decides, IfOk, OnOk};
ghost use Rattle.cdc_prog.specs.Plain.{Stmt as PlainStmt};
ghost use Rattle.cdc_prog.specs.Dependence.{spot};
ghost use Rattle.cdc_prog.specs.Resolved.{IsResolved, HasNoCall};
ghost use Rattle.cdc_prog.specs.Translation.{expr_of, exprs_of, item_of, target_of, stmt_of, stmts_of, arms_of, program_of};
ghost use Rattle.cdc_path.specs.Covers.{ArePlain, Keeps, Covers, HasRun};
ghost use Rattle.cdc_path.specs.References.{outside, expr_refs, exprs_refs, items_refs, reads_refs};
ghost use Rattle.cdc_mark.specs.Covered.{spot_of, IsAt, HasEarlier, IsCovered, run_after, EndsRun, HasRunIn};
ghost use Rattle.cdc_mark.specs.Least.{IsIn};
ghost use Rattle.cdc_mark.specs.Marked.{AreCovered};

use crate::bits::{no_bits, set_bit};
use crate::sameness::{any_mentions, are_plain, are_same, is_var};
use cdc_base::NoMemory;
use cdc_prog::{Arm, Expr, Item, Program, Ref, Stmt, Target, Unit};
use std::alloc::Global;

/// A reference with its subscripts.
#[derive(Drop)]
pub struct Mention<'a> {
    at: Ref,
    writes: bool,
    subs: &'a [Expr],
}

// Adds a reference to a run.
#[tactic(auto, using(crate::proofs::Covering::mention_added))]
fn add_mention<'a>(
    run: &mut Vec<Mention<'a>>,
    at: Ref,
    writes: bool,
    subs: &'a [Expr],
) -> Result<(), NoMemory>
    ensures { OnOk result (map spot_of run.new.items ≡ map spot_of run.old.items ++ spot outside writes at (exprs_of subs.now) ∷ []) }
{
    run.push(Mention { at, writes, subs })?;
    Ok(())
}

// Whether a reference is of one variable with a read, whose subscripts are plain, and has equal subscripts.
fn is_at(m: &Mention, read: &Mention) -> bool
    requires { ArePlain (spot_of read.now).subs }
    ensures { Decides result (IsAt (spot_of m.now) (spot_of read.now)) }
{
    is_var(m.at.var, read.at.var) && are_same(m.subs, read.subs)
}

// Whether a reference does not write a scalar of a read's plain subscripts.
fn keeps(m: &Mention, read: &Mention) -> bool
    requires { ArePlain (spot_of read.now).subs }
    ensures { Decides result (Keeps (spot_of read.now).subs (spot_of m.now)) }
{
    !(m.writes && any_mentions(read.subs, m.at.var))
}

// Whether one of the earlier references covers a read, the newest asked first.
fn has_cover(earlier: &[Mention], read: &Mention) -> bool
    requires { ArePlain (spot_of read.now).subs }
    ensures { Decides result (HasEarlier (map spot_of earlier.now) (spot_of read.now)) }
{
    let mut left = earlier.len();
    while left > 0 {
        let m = &earlier[left - 1];
        if is_at(m, read) {
            return true;
        }
        if !keeps(m, read) {
            return false;
        }
        left -= 1;
    }
    false
}

// Whether earlier references cover a reference.
fn is_covered(earlier: &[Mention], m: &Mention) -> bool
    ensures { Decides result (IsCovered m.now.at.site (map spot_of earlier.now) (spot_of m.now)) }
{
    !m.writes && are_plain(m.subs) && has_cover(earlier, m)
}

// Sets the bit of a reference's site, if it is a read that earlier ones cover.
fn cover_one(covered: &mut [bool], earlier: &[Mention], m: &Mention)
    ensures count { length covered.new ≡ length covered.old }
    ensures bits { (site : ℕ) → site < length covered.old → IsIn covered.new site ↔ (IsIn covered.old site ⊎ IsCovered site (map spot_of earlier.now) (spot_of m.now)) }
{
    if is_covered(earlier, m) {
        set_bit(covered, m.at.site as usize);
    }
}

// Sets the bits of the reads that have a cover in a run.
fn cover_run(covered: &mut [bool], run: &[Mention])
    ensures count { length covered.new ≡ length covered.old }
    ensures bits { (site : ℕ) → site < length covered.old → IsIn covered.new site ↔ (IsIn covered.old site ⊎ Covers site (map spot_of run.now)) }
{
    for at in 0..run.len() {
        let m = &run[at];
        cover_one(covered, &run[..at], m);
    }
}

#[cycle(expr)]
fn expr_mentions<'a>(run: &mut Vec<Mention<'a>>, e: &'a Expr) -> Result<(), NoMemory>
    ensures { OnOk result (map spot_of run.new.items ≡ map spot_of run.old.items ++ expr_refs outside (expr_of e.now)) }
{
    match e {
        Expr::Number(_) => Ok(()),
        Expr::Scalar(at) => add_mention(run, *at, false, &[]),
        Expr::Element(at, subs) => {
            exprs_mentions(run, subs.as_slice())?;
            add_mention(run, *at, false, subs.as_slice())
        }
        Expr::Un(_, a) => expr_mentions(run, a),
        Expr::Bin(_, a, b) => {
            expr_mentions(run, a)?;
            expr_mentions(run, b)
        }
    }
}

#[cycle(expr)]
fn exprs_mentions<'a>(run: &mut Vec<Mention<'a>>, es: &'a [Expr]) -> Result<(), NoMemory>
    ensures { OnOk result (map spot_of run.new.items ≡ map spot_of run.old.items ++ exprs_refs outside (exprs_of es.now)) }
{
    for e in es {
        expr_mentions(run, e)?;
    }
    Ok(())
}

fn items_mentions<'a>(run: &mut Vec<Mention<'a>>, items: &'a [Item]) -> Result<(), NoMemory>
    ensures { OnOk result (map spot_of run.new.items ≡ map spot_of run.old.items ++ items_refs outside (map item_of items.now)) }
{
    for item in items {
        if let Item::Value(value) = item {
            expr_mentions(run, value)?;
        }
    }
    Ok(())
}

fn targets_mentions<'a>(run: &mut Vec<Mention<'a>>, targets: &'a [Target]) -> Result<(), NoMemory>
    ensures { OnOk result (map spot_of run.new.items ≡ map spot_of run.old.items ++ reads_refs outside (map target_of targets.now)) }
{
    for t in targets {
        exprs_mentions(run, t.subs.as_slice())?;
        add_mention(run, t.at, true, t.subs.as_slice())?;
    }
    Ok(())
}

// Sets the bits of the reads that have a cover in a run, and begins another.
fn end_run<'a>(covered: &mut [bool], run: &mut Vec<Mention<'a>>)
    ensures count { length covered.new ≡ length covered.old }
    ensures bits { (site : ℕ) → site < length covered.old → IsIn covered.new site ↔ (IsIn covered.old site ⊎ Covers site (map spot_of run.old.items)) }
    ensures run { run.new.items ≡ [] }
{
    cover_run(covered, run.as_slice());
    run.clear();
}

// Sets the bits of the reads that have a cover in statements.
#[cycle(stmt)]
fn cover_statements(alloc: Global, covered: &mut [bool], ss: &[Stmt]) -> Result<(), NoMemory>
    ensures count { length covered.new ≡ length covered.old }
    ensures bits { OnOk result ((site : ℕ) → site < length covered.old → IsIn covered.new site ↔ (IsIn covered.old site ⊎ HasRun (Covers site) (stmts_of ss.now))) }
{
    let mut run = Vec::new(alloc);
    for s in ss {
        cover_statement(alloc, covered, &mut run, s)?;
    }
    cover_run(covered, run.as_slice());
    Ok(())
}

// Adds a statement to a run; or, where it ends the run, sets the bits of the reads that have a cover in the run and inside
// the statement.
#[cycle(stmt)]
fn cover_statement<'a>(
    alloc: Global,
    covered: &mut [bool],
    run: &mut Vec<Mention<'a>>,
    s: &'a Stmt,
) -> Result<(), NoMemory>
    ensures count { length covered.new ≡ length covered.old }
    ensures bits { OnOk result ((site : ℕ) → site < length covered.old → IsIn covered.new site ↔ (IsIn covered.old site ⊎ EndsRun site (stmt_of s.now) (map spot_of run.old.items))) }
    ensures run { OnOk result (map spot_of run.new.items ≡ run_after (stmt_of s.now) (map spot_of run.old.items)) }
{
    match s {
        Stmt::Assign { target, value, .. } => {
            exprs_mentions(run, target.subs.as_slice())?;
            expr_mentions(run, value)?;
            add_mention(run, target.at, true, target.subs.as_slice())
        }
        Stmt::Print { items, .. } => items_mentions(run, items.as_slice()),
        Stmt::Read { targets, .. } => targets_mentions(run, targets.as_slice()),
        Stmt::If { arms, other } => {
            end_run(covered, run);
            cover_arms(alloc, covered, arms.as_slice())?;
            cover_statements(alloc, covered, other.as_slice())
        }
        Stmt::Do { body, .. } | Stmt::Doall { body, .. } => {
            end_run(covered, run);
            cover_statements(alloc, covered, body.as_slice())
        }
        Stmt::Call { .. } => {
            end_run(covered, run);
            Ok(())
        }
    }
}

// Sets the bits of the reads that have a cover in the arms of an IF.
#[cycle(stmt)]
fn cover_arms(alloc: Global, covered: &mut [bool], arms: &[Arm]) -> Result<(), NoMemory>
    ensures count { length covered.new ≡ length covered.old }
    ensures bits { OnOk result ((site : ℕ) → site < length covered.old → (other : PlainStmt) → (IsIn covered.new site ⊎ HasRun (Covers site) other) ↔ (IsIn covered.old site ⊎ HasRun (Covers site) (arms_of arms.now other))) }
{
    for arm in arms {
        cover_statements(alloc, covered, arm.body.as_slice())?;
    }
    Ok(())
}

// Sets the bits of the reads that have a cover in units.
fn cover_units(alloc: Global, covered: &mut [bool], units: &[Unit]) -> Result<(), NoMemory>
    ensures count { length covered.new ≡ length covered.old }
    ensures bits { OnOk result ((site : ℕ) → site < length covered.old → IsIn covered.new site ↔ (IsIn covered.old site ⊎ HasRunIn site units.now)) }
{
    for unit in units {
        cover_statements(alloc, covered, unit.body.as_slice())?;
    }
    Ok(())
}

/// The sites of reads that have a cover, of the first ones.
///
/// # Errors
///
/// Memory ran out.
pub fn covered(alloc: Global, program: &Program, room: usize) -> Result<Vec<bool>, NoMemory>
    requires resolved { IsResolved (program_of program.now) }
    requires calls { HasNoCall (program_of program.now) }
    ensures { IfOk result (λ bits. AreCovered (program_of program.now) room bits.items) }
{
    let mut covered = no_bits(alloc, room)?;
    cover_units(alloc, &mut covered, program.units.as_slice())?;
    Ok(covered)
}
