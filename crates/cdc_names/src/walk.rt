ghost use Rattle.std.specs.Prelude.{◌≡◌, ◌++◌, ◌∷◌, [], map, option_map, IfOk, OnOk};
ghost use Rattle.cdc_tree.specs.Plain.{plain, plains};
ghost use Rattle.cdc_tree.specs.Forms.{bound, declared, define, spot, loop, shown, form, statement};
ghost use Rattle.cdc_tree.specs.Units.{node, body, branch, branches_of, unit};
ghost use Rattle.cdc_names.specs.declared.name_use.Role.TheVariants.{Assigned, Index, Private};
ghost use Rattle.cdc_names.specs.Places.{joined};
ghost use Rattle.cdc_names.specs.Used.{used};
ghost use Rattle.cdc_names.specs.Uses.{tree_uses, trees_uses, optional_uses, names_uses, spot_uses, spots_uses, actual_uses, shown_uses, bound_uses, item_uses, define_uses, control_uses, form_uses, statements_uses, closing_uses, node_uses, body_uses, branch_uses, branches_uses, unit_uses};

use crate::declared::add;
use crate::name_use::{NameUse, Role};
use cdc_base::List;
use cdc_tree::{
    Bound, Branch, Declared, Define, Form, Loop, Named, Node, Shown, Spot, Statement, Tree,
    UnitText,
};
use std::alloc::{AllocError, Global};

fn name<'a>(
    out: &mut List<NameUse<'a>>,
    named: &'a Named,
    role: Role,
    subs: usize,
) -> Result<(), AllocError>
    ensures { OnOk result (out.new ≡ out.old ++ used named.now role subs ∷ []) }
{
    add(out, NameUse::new(named, role, subs))
}

fn names<'a>(out: &mut List<NameUse<'a>>, names: &'a [Named], role: Role) -> Result<(), AllocError>
    ensures { OnOk result (out.new ≡ out.old ++ names_uses role names.now) }
{
    for n in names {
        name(out, n, role, 0)?;
    }
    Ok(())
}

#[cycle(tree)]
fn tree<'a>(out: &mut List<NameUse<'a>>, t: &'a Tree) -> Result<(), AllocError>
    ensures { OnOk result (out.new ≡ out.old ++ tree_uses (plain t.now)) }
{
    match t {
        Tree::Number(_, _) => Ok(()),
        Tree::Name(n) => name(out, n, Role::Read, 0),
        Tree::Apply(n, subs) => {
            let subs = subs.as_slice();
            name(out, n, Role::Read, subs.len())?;
            trees(out, subs)
        }
        Tree::Paren(_, a) => tree(out, a),
        Tree::Plus(_, a) => tree(out, a),
        Tree::Un(_, _, a) => tree(out, a),
        Tree::Bin(_, a, b) => {
            tree(out, a)?;
            tree(out, b)
        }
        Tree::Known(_, _, args) => trees(out, args.as_slice()),
    }
}

#[cycle(tree)]
fn trees<'a>(out: &mut List<NameUse<'a>>, ts: &'a [Tree]) -> Result<(), AllocError>
    ensures { OnOk result (out.new ≡ out.old ++ trees_uses (plains (map plain ts.now))) }
{
    for t in ts {
        tree(out, t)?;
    }
    Ok(())
}

fn optional<'a>(out: &mut List<NameUse<'a>>, t: &'a Option<Tree>) -> Result<(), AllocError>
    ensures { OnOk result (out.new ≡ out.old ++ optional_uses (option_map plain t.now)) }
{
    match t {
        None => Ok(()),
        Some(t) => tree(out, t),
    }
}

fn spot<'a>(out: &mut List<NameUse<'a>>, s: &'a Spot, role: Role) -> Result<(), AllocError>
    ensures { OnOk result (out.new ≡ out.old ++ spot_uses role (spot s.now)) }
{
    let subs = s.subs.as_slice();
    name(out, &s.name, role, subs.len())?;
    trees(out, subs)
}

fn spots<'a>(out: &mut List<NameUse<'a>>, ss: &'a [Spot], role: Role) -> Result<(), AllocError>
    ensures { OnOk result (out.new ≡ out.old ++ spots_uses role (map spot ss.now)) }
{
    for s in ss {
        spot(out, s, role)?;
    }
    Ok(())
}

fn actual<'a>(out: &mut List<NameUse<'a>>, t: &'a Tree) -> Result<(), AllocError>
    ensures { OnOk result (out.new ≡ out.old ++ actual_uses (plain t.now)) }
{
    match t {
        Tree::Name(n) => name(out, n, Role::Actual, 0),
        _ => tree(out, t),
    }
}

fn actuals<'a>(out: &mut List<NameUse<'a>>, ts: &'a [Tree]) -> Result<(), AllocError>
    ensures { OnOk result (out.new ≡ out.old ++ joined (map actual_uses (map plain ts.now))) }
{
    for t in ts {
        actual(out, t)?;
    }
    Ok(())
}

fn shown<'a>(out: &mut List<NameUse<'a>>, item: &'a Shown) -> Result<(), AllocError>
    ensures { OnOk result (out.new ≡ out.old ++ shown_uses (shown item.now)) }
{
    match item {
        Shown::Text(_) => Ok(()),
        Shown::Value(t) => tree(out, t),
    }
}

fn shown_items<'a>(out: &mut List<NameUse<'a>>, items: &'a [Shown]) -> Result<(), AllocError>
    ensures { OnOk result (out.new ≡ out.old ++ joined (map shown_uses (map shown items.now))) }
{
    for item in items {
        shown(out, item)?;
    }
    Ok(())
}

fn bounds<'a>(out: &mut List<NameUse<'a>>, bs: &'a [Bound]) -> Result<(), AllocError>
    ensures { OnOk result (out.new ≡ out.old ++ joined (map bound_uses (map bound bs.now))) }
{
    for b in bs {
        optional(out, &b.low)?;
        tree(out, &b.high)?;
    }
    Ok(())
}

fn variables<'a>(out: &mut List<NameUse<'a>>, items: &'a [Declared]) -> Result<(), AllocError>
    ensures { OnOk result (out.new ≡ out.old ++ joined (map item_uses (map declared items.now))) }
{
    for item in items {
        bounds(out, item.bounds.as_slice())?;
    }
    Ok(())
}

fn parameters<'a>(out: &mut List<NameUse<'a>>, items: &'a [Define]) -> Result<(), AllocError>
    ensures { OnOk result (out.new ≡ out.old ++ joined (map define_uses (map define items.now))) }
{
    for item in items {
        tree(out, &item.value)?;
    }
    Ok(())
}

fn assignment<'a>(
    out: &mut List<NameUse<'a>>,
    target: &'a Spot,
    value: &'a Tree,
) -> Result<(), AllocError>
    ensures { OnOk result (out.new ≡ out.old ++ spot_uses Assigned (spot target.now) ++ tree_uses (plain value.now)) }
{
    spot(out, target, Role::Assigned)?;
    tree(out, value)
}

fn controls<'a>(out: &mut List<NameUse<'a>>, l: &'a Loop) -> Result<(), AllocError>
    ensures { OnOk result (out.new ≡ out.old ++ control_uses (loop l.now)) }
{
    tree(out, &l.from)?;
    tree(out, &l.to)?;
    optional(out, &l.by)
}

fn counted<'a>(out: &mut List<NameUse<'a>>, l: &'a Loop, role: Role) -> Result<(), AllocError>
    ensures { OnOk result (out.new ≡ out.old ++ used l.now.var role 0 ∷ control_uses (loop l.now)) }
{
    name(out, &l.var, role, 0)?;
    controls(out, l)
}

fn doall<'a>(
    out: &mut List<NameUse<'a>>,
    l: &'a Loop,
    privates: &'a [Named],
) -> Result<(), AllocError>
    ensures { OnOk result (out.new ≡ out.old ++ used l.now.var Index 0 ∷ control_uses (loop l.now) ++ names_uses Private privates.now) }
{
    counted(out, l, Role::Index)?;
    names(out, privates, Role::Private)
}

fn form<'a>(out: &mut List<NameUse<'a>>, f: &'a Form) -> Result<(), AllocError>
    ensures { OnOk result (out.new ≡ out.old ++ form_uses (form f.now)) }
{
    match f {
        Form::Subroutine(_, dummies) => names(out, dummies.as_slice(), Role::Dummy),
        Form::Integer(items) => variables(out, items.as_slice()),
        Form::Parameter(items) => parameters(out, items.as_slice()),
        Form::Assign(target, value) => assignment(out, target, value),
        Form::IfThen(cond) => tree(out, cond),
        Form::ElseIf(cond) => tree(out, cond),
        Form::LogicalIf(cond, s) => {
            tree(out, cond)?;
            form(out, &s.form)
        }
        Form::Do(l) => counted(out, l, Role::Counted),
        Form::Doall(l, privates) => doall(out, l, privates.as_slice()),
        Form::Call(_, ts) => actuals(out, ts.as_slice()),
        Form::Print(items) => shown_items(out, items.as_slice()),
        Form::Read(ss) => spots(out, ss.as_slice(), Role::Input),
        _ => Ok(()),
    }
}

fn statements<'a>(out: &mut List<NameUse<'a>>, ss: &'a [Statement]) -> Result<(), AllocError>
    ensures { OnOk result (out.new ≡ out.old ++ statements_uses (map statement ss.now)) }
{
    for s in ss {
        form(out, &s.form)?;
    }
    Ok(())
}

fn closing<'a>(out: &mut List<NameUse<'a>>, f: &'a Form) -> Result<(), AllocError>
    ensures { OnOk result (out.new ≡ out.old ++ closing_uses (form f.now)) }
{
    match f {
        Form::Do(l) => name(out, &l.var, Role::Closed, 0),
        Form::Doall(l, privates) => {
            name(out, &l.var, Role::Closed, 0)?;
            names(out, privates.as_slice(), Role::Closed)
        }
        _ => Ok(()),
    }
}

#[cycle(node)]
fn node<'a>(out: &mut List<NameUse<'a>>, n: &'a Node) -> Result<(), AllocError>
    ensures { OnOk result (out.new ≡ out.old ++ node_uses (node n.now)) }
{
    match n {
        Node::Plain(s) => form(out, &s.form),
        Node::If(bs, other, _) => {
            branches(out, bs.as_slice())?;
            match other {
                None => Ok(()),
                Some(b) => branch(out, b),
            }
        }
        Node::Loop(head, body, _) => {
            form(out, &head.form)?;
            nodes(out, body.as_slice())?;
            closing(out, &head.form)
        }
    }
}

#[cycle(node)]
fn nodes<'a>(out: &mut List<NameUse<'a>>, ns: &'a [Node]) -> Result<(), AllocError>
    ensures { OnOk result (out.new ≡ out.old ++ body_uses (body ns.now)) }
{
    for n in ns {
        node(out, n)?;
    }
    Ok(())
}

#[cycle(node)]
fn branch<'a>(out: &mut List<NameUse<'a>>, b: &'a Branch) -> Result<(), AllocError>
    ensures { OnOk result (out.new ≡ out.old ++ branch_uses (branch b.now)) }
{
    form(out, &b.head.form)?;
    nodes(out, b.body.as_slice())
}

#[cycle(node)]
fn branches<'a>(out: &mut List<NameUse<'a>>, bs: &'a [Branch]) -> Result<(), AllocError>
    ensures { OnOk result (out.new ≡ out.old ++ branches_uses (branches_of (map branch bs.now))) }
{
    for b in bs {
        branch(out, b)?;
    }
    Ok(())
}

/// Adds the uses of names in a unit.
pub(crate) fn unit<'a>(out: &mut List<NameUse<'a>>, u: &'a UnitText) -> Result<(), AllocError>
    ensures { OnOk result (out.new ≡ out.old ++ unit_uses (unit u.now)) }
{
    form(out, &u.head.form)?;
    statements(out, u.declarations.as_slice())?;
    nodes(out, u.body.as_slice())
}

/// The uses of names in a unit, in the order of its text.
pub fn unit_uses(alloc: Global, u: &UnitText) -> Result<List<NameUse<'_>>, AllocError>
    ensures { IfOk result (λ us. us ≡ unit_uses (unit u.now)) }
{
    let mut out = List::new(alloc);
    unit(&mut out, u)?;
    Ok(out)
}
