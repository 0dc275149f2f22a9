// The lists in which no name may stand twice.
ghost use Rattle.std.specs.Prelude.{◌≡◌, ◌++◌, ◌∷◌, [], map, IfOk, OnOk};
ghost use Rattle.cdc_tree.specs.Forms.{form};
ghost use Rattle.cdc_tree.specs.Units.{node, body, branch, branches_of, unit};
ghost use Rattle.cdc_names.specs.Duplicates.{slot_names, slot_lists, node_lists, body_lists, branches_lists, dummy_names, declared_names, unit_lists, unit_name, head_names, name_lists};

use crate::declaration::Label;
use crate::declared::{add, declarations};
use cdc_base::List;
use cdc_tree::{Branch, Form, Named, Node, UnitText};
use std::alloc::{AllocError, Global};

fn labels<'a>(names: &mut List<Label<'a>>, more: &'a [Named]) -> Result<(), AllocError>
    ensures { OnOk result (names.new ≡ names.old ++ more.now) }
{
    for named in more {
        add(names, Label { named })?;
    }
    Ok(())
}

fn slots<'a>(
    alloc: Global,
    out: &mut List<List<Label<'a>>>,
    head: &'a Form,
) -> Result<(), AllocError>
    ensures { OnOk result (out.new ≡ out.old ++ slot_names (form head.now)) }
{
    match head {
        Form::Doall(l, privates) => {
            let mut names = List::new(alloc);
            add(&mut names, Label { named: &l.var })?;
            labels(&mut names, privates.as_slice())?;
            add(out, names)
        }
        _ => Ok(()),
    }
}

#[cycle(lists)]
fn node<'a>(out: &mut List<List<Label<'a>>>, alloc: Global, n: &'a Node) -> Result<(), AllocError>
    ensures { OnOk result (out.new ≡ out.old ++ node_lists (node n.now)) }
{
    match n {
        Node::Plain(_) => Ok(()),
        Node::If(bs, other, _) => {
            branches(out, alloc, bs.as_slice())?;
            match other {
                None => Ok(()),
                Some(b) => nodes(out, alloc, b.body.as_slice()),
            }
        }
        Node::Loop(head, body, _) => {
            slots(alloc, out, &head.form)?;
            nodes(out, alloc, body.as_slice())
        }
    }
}

#[cycle(lists)]
fn nodes<'a>(
    out: &mut List<List<Label<'a>>>,
    alloc: Global,
    ns: &'a [Node],
) -> Result<(), AllocError>
    ensures { OnOk result (out.new ≡ out.old ++ body_lists (body ns.now)) }
{
    for n in ns {
        node(out, alloc, n)?;
    }
    Ok(())
}

#[cycle(lists)]
fn branches<'a>(
    out: &mut List<List<Label<'a>>>,
    alloc: Global,
    bs: &'a [Branch],
) -> Result<(), AllocError>
    ensures { OnOk result (out.new ≡ out.old ++ branches_lists (branches_of (map branch bs.now))) }
{
    for b in bs {
        nodes(out, alloc, b.body.as_slice())?;
    }
    Ok(())
}

fn declared<'a>(
    alloc: Global,
    out: &mut List<List<Label<'a>>>,
    u: &'a UnitText,
) -> Result<(), AllocError>
    ensures { OnOk result (out.new ≡ out.old ++ declared_names (unit u.now) ∷ []) }
{
    let declarations = declarations(alloc, u.declarations.as_slice())?;
    let ds = declarations.as_slice();
    let mut names = List::new(alloc);
    for d in ds {
        add(&mut names, Label { named: d.named })?;
    }
    add(out, names)
}

fn dummies<'a>(
    alloc: Global,
    out: &mut List<List<Label<'a>>>,
    head: &'a Form,
) -> Result<(), AllocError>
    ensures { OnOk result (out.new ≡ out.old ++ dummy_names (form head.now) ∷ []) }
{
    match head {
        Form::Subroutine(_, dummies) => {
            let mut names = List::new(alloc);
            labels(&mut names, dummies.as_slice())?;
            add(out, names)
        }
        _ => add(out, List::new(alloc)),
    }
}

fn unit<'a>(
    alloc: Global,
    out: &mut List<List<Label<'a>>>,
    u: &'a UnitText,
) -> Result<(), AllocError>
    ensures { OnOk result (out.new ≡ out.old ++ unit_lists (unit u.now)) }
{
    declared(alloc, out, u)?;
    dummies(alloc, out, &u.head.form)?;
    nodes(out, alloc, u.body.as_slice())
}

fn unit_name<'a>(names: &mut List<Label<'a>>, head: &'a Form) -> Result<(), AllocError>
    ensures { OnOk result (names.new ≡ names.old ++ unit_name (form head.now)) }
{
    match head {
        Form::Program(name) => add(names, Label { named: name }),
        Form::Subroutine(name, _) => add(names, Label { named: name }),
        _ => Ok(()),
    }
}

fn head_names<'a>(
    alloc: Global,
    out: &mut List<List<Label<'a>>>,
    units: &'a [UnitText],
) -> Result<(), AllocError>
    ensures { OnOk result (out.new ≡ out.old ++ head_names (map unit units.now) ∷ []) }
{
    let mut names = List::new(alloc);
    for u in units {
        unit_name(&mut names, &u.head.form)?;
    }
    add(out, names)
}

/// The lists in which no name may stand twice.
pub fn name_lists<'a>(
    alloc: Global,
    units: &'a [UnitText],
) -> Result<List<List<Label<'a>>>, AllocError>
    ensures { IfOk result (λ ls. ls ≡ name_lists (map unit units.now)) }
{
    let mut out = List::new(alloc);
    head_names(alloc, &mut out, units)?;
    for u in units {
        unit(alloc, &mut out, u)?;
    }
    Ok(out)
}

/// For each DOALL its index and private names.
pub fn slot_lists<'a>(
    alloc: Global,
    units: &'a [UnitText],
) -> Result<List<List<Label<'a>>>, AllocError>
    ensures { IfOk result (λ ls. ls ≡ slot_lists (map unit units.now)) }
{
    let mut out = List::new(alloc);
    for u in units {
        nodes(&mut out, alloc, u.body.as_slice())?;
    }
    Ok(out)
}
