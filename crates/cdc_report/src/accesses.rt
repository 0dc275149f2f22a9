// The lines on the accesses of memory.
ghost use Rattle.std.specs.Prelude.{◌≡◌, true, false, [], ◌∷◌, ◌++◌, map};
ghost use Rattle.cdc_base.specs.Gathered.{waiting};
ghost use Rattle.cdc_prog.specs.declared.affine.Scope.{Scope};
ghost use Rattle.cdc_prog.specs.Dependence.{spot};
ghost use Rattle.cdc_prog.specs.Marked.{mark_of};
ghost use Rattle.cdc_prog.specs.Plain.{Empty, Assign, Skip};
ghost use Rattle.cdc_prog.specs.Translation.{expr_of, exprs_of, control_of, item_of, target_of, actual_of, stmt_of, stmts_of, arms_of};
ghost use Rattle.cdc_path.specs.References.{expr_refs, exprs_refs, controls_refs, items_refs, reads_refs, actuals_refs, refs, outside};
ghost use Rattle.cdc_text.specs.Pieces.{Gathers, texts_bytes};
ghost use Rattle.cdc_report.specs.MarkLines.{name_at, kind, line_head, line_end, line_of, access_lines};

use cdc_base::{Gathered, List, Sink, SinkFault};
use cdc_prog::{Actual, Arm, Control, Dummy, Expr, Item, Mark, Object, Ref, Stmt, Target, Var};
use cdc_text::{Text, gather_texts};
use std::marker::Model;

/// What the lines on the accesses of a unit tell of: the objects, the dummies of the unit, and the marks.
#[derive(Drop)]
pub struct Sites<'a> {
    pub objects: &'a [Object],
    pub dummies: &'a [Dummy],
    pub reads: &'a [Mark],
}

impl<'a> Model for Sites<'a> {
    ghost use Rattle.cdc_report.specs.MarkLines.{Sites};

    ghost Value = { Sites };

    ghost view = { λ s. record { objects = s.objects.now; dummies = s.dummies.now; reads = s.reads.now } };
}

fn kind(writes: bool) -> &'static [u8]
    ensures { result.now ≡ kind writes }
{
    if writes { b" write " } else { b" read " }
}

impl<'a> Sites<'a> {
    fn name(&self, var: Var) -> &'a [u8]
        ensures { result.now ≡ name_at self.now var }
    {
        match var {
            Var::Object(k) => match self.objects.get(k as usize) {
                Some(o) => o.name.as_slice(),
                None => b"",
            },
            Var::Dummy(k) => match self.dummies.get(k as usize) {
                Some(d) => d.name.as_slice(),
                None => b"",
            },
            Var::Slot(_) => b"",
        }
    }

    fn mark(&self, site: u32) -> Mark
        ensures { result ≡ mark_of self.now.reads site }
    {
        self.reads
            .get(site.saturating_sub(1) as usize)
            .copied()
            .unwrap_or(Mark::Ordinary)
    }

    // The end of a line, for a read with its mark.
    fn line_end(&self, writes: bool, site: u32) -> [Text<'a>; 3]
        ensures { texts_bytes result ≡ line_end self.now writes site }
    {
        const NOTHING: Text<'static> = Text::Words(b"");
        const END: Text<'static> = Text::Words(b"\n");
        if writes {
            return [NOTHING, NOTHING, END];
        }
        match self.mark(site) {
            Mark::Ordinary => [Text::Words(b" ordinary"), NOTHING, END],
            Mark::Time(d) => [Text::Words(b" time "), Text::Number(d as u64), END],
        }
    }
}

// Gathers the line of an access of memory.
fn gather_line<K: Sink>(
    out: &mut K,
    gathered: &mut Gathered,
    sites: &Sites,
    writes: bool,
    at: Ref,
) -> Result<(), SinkFault>
    ensures { Gathers (line_head sites.now writes at ++ line_end sites.now writes at.site) result (K.taken out.old) (K.taken out.new) (waiting gathered.old) (waiting gathered.new) (K.faults out.old) (K.faults out.new) }
{
    let head = [
        Text::Words(b"site "),
        Text::Number(at.site as u64),
        Text::Words(kind(writes)),
        Text::Words(sites.name(at.var)),
        Text::Words(b" at "),
        Text::Number(at.place.line as u64),
        Text::Words(b":"),
        Text::Number(at.place.column as u64),
    ];
    gather_texts(out, gathered, &head)?;
    gather_texts(out, gathered, &sites.line_end(writes, at.site))
}

// Gathers the line of a reference, if it is in memory.
fn gather_access<K: Sink>(
    out: &mut K,
    gathered: &mut Gathered,
    sites: &Sites,
    writes: bool,
    at: Ref,
) -> Result<(), SinkFault>
    ensures { Gathers (access_lines sites.now (spot outside writes at Empty ∷ [])) result (K.taken out.old) (K.taken out.new) (waiting gathered.old) (waiting gathered.new) (K.faults out.old) (K.faults out.new) }
{
    match at.var {
        Var::Slot(_) => Ok(()),
        Var::Object(_) | Var::Dummy(_) => gather_line(out, gathered, sites, writes, at),
    }
}

// Gathers the lines of an expression's accesses. The loops around it, of which a scope tells, change no line.
#[cycle(expr)]
fn gather_expr<K: Sink>(
    out: &mut K,
    gathered: &mut Gathered,
    sites: &Sites,
    e: &Expr,
) -> Result<(), SinkFault>
    ensures { (sc : Scope) → Gathers (access_lines sites.now (expr_refs sc (expr_of e.now))) result (K.taken out.old) (K.taken out.new) (waiting gathered.old) (waiting gathered.new) (K.faults out.old) (K.faults out.new) }
{
    match e {
        Expr::Number(_) => Ok(()),
        Expr::Scalar(at) => gather_access(out, gathered, sites, false, *at),
        Expr::Element(at, subs) => {
            gather_exprs(out, gathered, sites, subs)?;
            gather_access(out, gathered, sites, false, *at)
        }
        Expr::Un(_, a) => gather_expr(out, gathered, sites, a),
        Expr::Bin(_, a, b) => {
            gather_expr(out, gathered, sites, a)?;
            gather_expr(out, gathered, sites, b)
        }
    }
}

#[cycle(expr)]
fn gather_exprs<K: Sink>(
    out: &mut K,
    gathered: &mut Gathered,
    sites: &Sites,
    es: &List<Expr>,
) -> Result<(), SinkFault>
    ensures { (sc : Scope) → Gathers (access_lines sites.now (exprs_refs sc (exprs_of es.now))) result (K.taken out.old) (K.taken out.new) (waiting gathered.old) (waiting gathered.new) (K.faults out.old) (K.faults out.new) }
{
    for e in es.as_slice() {
        gather_expr(out, gathered, sites, e)?;
    }
    Ok(())
}

fn gather_controls<K: Sink>(
    out: &mut K,
    gathered: &mut Gathered,
    sites: &Sites,
    k: &Control,
) -> Result<(), SinkFault>
    ensures { (sc : Scope) → Gathers (access_lines sites.now (controls_refs sc (control_of k.now))) result (K.taken out.old) (K.taken out.new) (waiting gathered.old) (waiting gathered.new) (K.faults out.old) (K.faults out.new) }
{
    gather_expr(out, gathered, sites, &k.from)?;
    gather_expr(out, gathered, sites, &k.to)?;
    gather_expr(out, gathered, sites, &k.by)
}

fn gather_item<K: Sink>(
    out: &mut K,
    gathered: &mut Gathered,
    sites: &Sites,
    item: &Item,
) -> Result<(), SinkFault>
    ensures { (sc : Scope) → Gathers (access_lines sites.now (items_refs sc (item_of item.now ∷ []))) result (K.taken out.old) (K.taken out.new) (waiting gathered.old) (waiting gathered.new) (K.faults out.old) (K.faults out.new) }
{
    match item {
        Item::Text(_) => Ok(()),
        Item::Value(value) => gather_expr(out, gathered, sites, value),
    }
}

fn gather_items<K: Sink>(
    out: &mut K,
    gathered: &mut Gathered,
    sites: &Sites,
    items: &List<Item>,
) -> Result<(), SinkFault>
    ensures { (sc : Scope) → Gathers (access_lines sites.now (items_refs sc (map item_of items.now))) result (K.taken out.old) (K.taken out.new) (waiting gathered.old) (waiting gathered.new) (K.faults out.old) (K.faults out.new) }
{
    for item in items.as_slice() {
        gather_item(out, gathered, sites, item)?;
    }
    Ok(())
}

fn gather_target<K: Sink>(
    out: &mut K,
    gathered: &mut Gathered,
    sites: &Sites,
    t: &Target,
) -> Result<(), SinkFault>
    ensures { (sc : Scope) → Gathers (access_lines sites.now (reads_refs sc (target_of t.now ∷ []))) result (K.taken out.old) (K.taken out.new) (waiting gathered.old) (waiting gathered.new) (K.faults out.old) (K.faults out.new) }
{
    gather_exprs(out, gathered, sites, &t.subs)?;
    gather_access(out, gathered, sites, true, t.at)
}

fn gather_targets<K: Sink>(
    out: &mut K,
    gathered: &mut Gathered,
    sites: &Sites,
    targets: &List<Target>,
) -> Result<(), SinkFault>
    ensures { (sc : Scope) → Gathers (access_lines sites.now (reads_refs sc (map target_of targets.now))) result (K.taken out.old) (K.taken out.new) (waiting gathered.old) (waiting gathered.new) (K.faults out.old) (K.faults out.new) }
{
    for t in targets.as_slice() {
        gather_target(out, gathered, sites, t)?;
    }
    Ok(())
}

fn gather_actual<K: Sink>(
    out: &mut K,
    gathered: &mut Gathered,
    sites: &Sites,
    actual: &Actual,
) -> Result<(), SinkFault>
    ensures { (sc : Scope) → Gathers (access_lines sites.now (actuals_refs sc (actual_of actual.now ∷ []))) result (K.taken out.old) (K.taken out.new) (waiting gathered.old) (waiting gathered.new) (K.faults out.old) (K.faults out.new) }
{
    match actual {
        Actual::Whole(_) => Ok(()),
        Actual::Copy(at, value) => {
            gather_expr(out, gathered, sites, value)?;
            gather_access(out, gathered, sites, true, *at)
        }
    }
}

fn gather_actuals<K: Sink>(
    out: &mut K,
    gathered: &mut Gathered,
    sites: &Sites,
    actuals: &List<Actual>,
) -> Result<(), SinkFault>
    ensures { (sc : Scope) → Gathers (access_lines sites.now (actuals_refs sc (map actual_of actuals.now))) result (K.taken out.old) (K.taken out.new) (waiting gathered.old) (waiting gathered.new) (K.faults out.old) (K.faults out.new) }
{
    for actual in actuals.as_slice() {
        gather_actual(out, gathered, sites, actual)?;
    }
    Ok(())
}

fn gather_assign<K: Sink>(
    out: &mut K,
    gathered: &mut Gathered,
    sites: &Sites,
    target: &Target,
    value: &Expr,
) -> Result<(), SinkFault>
    ensures { (sc : Scope) → Gathers (access_lines sites.now (refs sc (Assign 0 (target_of target.now) (expr_of value.now)))) result (K.taken out.old) (K.taken out.new) (waiting gathered.old) (waiting gathered.new) (K.faults out.old) (K.faults out.new) }
{
    gather_exprs(out, gathered, sites, &target.subs)?;
    gather_expr(out, gathered, sites, value)?;
    gather_access(out, gathered, sites, true, target.at)
}

// What comes before the turns of a DO.
fn gather_start<K: Sink>(
    out: &mut K,
    gathered: &mut Gathered,
    sites: &Sites,
    control: &Control,
    first: Ref,
) -> Result<(), SinkFault>
    ensures { (sc : Scope) → Gathers (access_lines sites.now (controls_refs sc (control_of control.now) ++ (spot sc true first Empty ∷ []))) result (K.taken out.old) (K.taken out.new) (waiting gathered.old) (waiting gathered.new) (K.faults out.old) (K.faults out.new) }
{
    gather_controls(out, gathered, sites, control)?;
    gather_access(out, gathered, sites, true, first)
}

// What raises the variable of a DO.
fn gather_raise<K: Sink>(
    out: &mut K,
    gathered: &mut Gathered,
    sites: &Sites,
    again: Ref,
    bump: Ref,
) -> Result<(), SinkFault>
    ensures { (sc : Scope) → Gathers (access_lines sites.now (spot sc false again Empty ∷ spot sc true bump Empty ∷ [])) result (K.taken out.old) (K.taken out.new) (waiting gathered.old) (waiting gathered.new) (K.faults out.old) (K.faults out.new) }
{
    gather_access(out, gathered, sites, false, again)?;
    gather_access(out, gathered, sites, true, bump)
}

#[cycle(stmt)]
fn gather_stmt<K: Sink>(
    out: &mut K,
    gathered: &mut Gathered,
    sites: &Sites,
    s: &Stmt,
) -> Result<(), SinkFault>
    ensures { (sc : Scope) → Gathers (access_lines sites.now (refs sc (stmt_of s.now))) result (K.taken out.old) (K.taken out.new) (waiting gathered.old) (waiting gathered.new) (K.faults out.old) (K.faults out.new) }
{
    match s {
        Stmt::Assign { target, value, .. } => gather_assign(out, gathered, sites, target, value),
        Stmt::If { arms, other } => {
            gather_arms(out, gathered, sites, arms)?;
            gather_stmts(out, gathered, sites, other)
        }
        Stmt::Do {
            control,
            first,
            body,
            again,
            bump,
        } => {
            gather_start(out, gathered, sites, control, *first)?;
            gather_stmts(out, gathered, sites, body)?;
            gather_raise(out, gathered, sites, *again, *bump)
        }
        Stmt::Doall { control, body, .. } => {
            gather_controls(out, gathered, sites, control)?;
            gather_stmts(out, gathered, sites, body)
        }
        Stmt::Call { actuals, .. } => gather_actuals(out, gathered, sites, actuals),
        Stmt::Print { items, .. } => gather_items(out, gathered, sites, items),
        Stmt::Read { targets, .. } => gather_targets(out, gathered, sites, targets),
    }
}

#[cycle(stmt)]
fn gather_arms<K: Sink>(
    out: &mut K,
    gathered: &mut Gathered,
    sites: &Sites,
    arms: &List<Arm>,
) -> Result<(), SinkFault>
    ensures { (sc : Scope) → Gathers (access_lines sites.now (refs sc (arms_of arms.now Skip))) result (K.taken out.old) (K.taken out.new) (waiting gathered.old) (waiting gathered.new) (K.faults out.old) (K.faults out.new) }
{
    for arm in arms.as_slice() {
        gather_expr(out, gathered, sites, &arm.cond)?;
        gather_stmts(out, gathered, sites, &arm.body)?;
    }
    Ok(())
}

/// Gathers the lines of the accesses of statements.
#[cycle(stmt)]
pub fn gather_stmts<K: Sink>(
    out: &mut K,
    gathered: &mut Gathered,
    sites: &Sites,
    ss: &List<Stmt>,
) -> Result<(), SinkFault>
    ensures { (sc : Scope) → Gathers (access_lines sites.now (refs sc (stmts_of ss.now))) result (K.taken out.old) (K.taken out.new) (waiting gathered.old) (waiting gathered.new) (K.faults out.old) (K.faults out.new) }
{
    for s in ss.as_slice() {
        gather_stmt(out, gathered, sites, s)?;
    }
    Ok(())
}
