ghost use Rattle.std.specs.Prelude.{◌≡◌, ◌||◌, map, None, if◌then◌else◌};
ghost use Rattle.cdc_tree.specs.Forms.{form, statement};
ghost use Rattle.cdc_tree.specs.Units.{node, body, branch, branches_of, unit, node_out, out, branches_out};
ghost use Rattle.cdc_names.specs.Places.{first_of};
ghost use Rattle.cdc_names.specs.DoallBodies.{misfit, misplaced, is_doall, node_inside, body_inside, branches_inside, branch_out, doall_body_in};

use crate::place::sooner;
use cdc_base::Place;
use cdc_tree::{Branch, Form, Node, Statement, UnitText};

fn misfit(place: Place, f: &Form) -> Option<Place>
    ensures { result ≡ misfit place (form f.now) }
{
    match f {
        Form::Assign(_, _)
        | Form::IfThen(_)
        | Form::ElseIf(_)
        | Form::Else
        | Form::EndIf
        | Form::Do(_)
        | Form::EndDo => None,
        Form::LogicalIf(_, simple) => misfit(simple.place, &simple.form),
        Form::Program(_)
        | Form::Subroutine(_, _)
        | Form::End(_)
        | Form::ImplicitNone
        | Form::Integer(_)
        | Form::Parameter(_)
        | Form::Doall(_, _)
        | Form::EndDoall
        | Form::Call(_, _)
        | Form::Print(_)
        | Form::Read(_) => Some(place),
    }
}

fn is_doall(f: &Form) -> bool
    ensures { result ≡ is_doall (form f.now) }
{
    match f {
        Form::Doall(_, _) => true,
        _ => false,
    }
}

fn is_inside(inside: bool, head: &Form) -> bool
    ensures { result ≡ (inside || is_doall (form head.now)) }
{
    inside || is_doall(head)
}

// Inside the body of a DOALL each statement is asked, and outside those in its DOALL loops.

fn statement(inside: bool, s: &Statement) -> Option<Place>
    ensures { result ≡ (if inside then misplaced (statement s.now) else None) }
{
    if inside {
        misfit(s.place, &s.form)
    } else {
        None
    }
}

#[cycle(bodies)]
fn node(inside: bool, n: &Node) -> Option<Place>
    ensures { result ≡ first_of misplaced (if inside then node_out (node n.now) else node_inside (node n.now)) }
{
    match n {
        Node::Plain(s) => statement(inside, s),
        Node::If(bs, other, end) => {
            let first = branches(inside, bs.as_slice());
            let last = statement(inside, end);
            match other {
                None => sooner(first, last),
                Some(b) => sooner(first, sooner(branch(inside, b), last)),
            }
        }
        Node::Loop(head, body, end) => {
            let first = statement(inside, head);
            let within = nodes(is_inside(inside, &head.form), body.as_slice());
            sooner(first, sooner(within, statement(inside, end)))
        }
    }
}

#[cycle(bodies)]
fn nodes(inside: bool, ns: &[Node]) -> Option<Place>
    ensures { result ≡ first_of misplaced (if inside then out (body ns.now) else body_inside (body ns.now)) }
{
    let mut best = None;
    for n in ns {
        best = sooner(best, node(inside, n));
    }
    best
}

#[cycle(bodies)]
fn branch(inside: bool, b: &Branch) -> Option<Place>
    ensures { result ≡ first_of misplaced (if inside then branch_out (branch b.now) else body_inside (branch b.now).1) }
{
    sooner(statement(inside, &b.head), nodes(inside, b.body.as_slice()))
}

#[cycle(bodies)]
fn branches(inside: bool, bs: &[Branch]) -> Option<Place>
    ensures { result ≡ first_of misplaced (if inside then branches_out (branches_of (map branch bs.now)) else branches_inside (branches_of (map branch bs.now))) }
{
    let mut best = None;
    for b in bs {
        best = sooner(best, branch(inside, b));
    }
    best
}

/// The first place of a statement in the body of a DOALL that is no assignment, IF or DO.
pub fn first_doall_body(units: &[UnitText]) -> Option<Place>
    ensures { result ≡ first_of doall_body_in (map unit units.now) }
{
    let mut best = None;
    for u in units {
        best = sooner(best, nodes(false, u.body.as_slice()));
    }
    best
}
