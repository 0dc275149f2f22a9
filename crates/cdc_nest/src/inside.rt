//! A unit that is being read: its parts so far and its open blocks.

ghost use Rattle.std.specs.Prelude.{◌≡◌, Some, map, option_map, []};
ghost use Rattle.cdc_tree.specs.Units.{node, body, branch, branches_of, unit, NIf, NElse, BNone, Empty};
ghost use Rattle.cdc_tree.specs.Forms as f;
ghost use Rattle.cdc_nest.specs.Nesting as n;

use crate::role::{Role, ends, role_of};
use cdc_base::List;
use cdc_tree::{Branch, Node, Statement, UnitText};
use std::alloc::{AllocError, AllocFailed, Global};

/// What stands around a body: the head of its unit or block with the parts before the body. Around a
/// block stand the block that holds it and the nodes before it there.
#[derive(Drop)]
pub enum Frame {
    Unit {
        head: Statement,
        none: Option<Statement>,
        declarations: Vec<Statement>,
    },
    /// The branches before, and the IF or ELSE IF that heads this one.
    If {
        outer: Box<Frame>,
        before: Vec<Node>,
        branches: Vec<Branch>,
        head: Statement,
    },
    Else {
        outer: Box<Frame>,
        before: Vec<Node>,
        branches: Vec<Branch>,
        head: Statement,
    },
    Loop {
        outer: Box<Frame>,
        before: Vec<Node>,
        head: Statement,
    },
}

/// What is open inside a unit: the innermost body so far, and what stands around it.
#[derive(Drop)]
pub struct Inside {
    pub frame: Box<Frame>,
    pub nodes: Vec<Node>,
}

/// Why a statement is not taken.
#[derive(Clone, Copy)]
pub enum Unfit {
    Misfit,
    Memory,
}

impl From<AllocError> for Unfit {
    ghost use Rattle.std.specs.Prelude.{◌≡◌};
    ghost use Rattle.cdc_nest.specs.declared.inside.Unfit.TheVariants.{Memory};

    ghost from_gives = { λ _ e. e ≡ Memory };

    fn from(_: AllocError) -> Unfit {
        Unfit::Memory
    }
}

impl<T: Drop> From<AllocFailed<T>> for Unfit {
    ghost use Rattle.std.specs.Prelude.{◌≡◌};
    ghost use Rattle.cdc_nest.specs.declared.inside.Unfit.TheVariants.{Memory};

    ghost from_gives = { λ _ e. e ≡ Memory };

    fn from(_: AllocFailed<T>) -> Unfit {
        Unfit::Memory
    }
}

/// The branches with one more at the end.
#[tactic(auto, using(crate::proofs::Puts::branches_put))]
fn branched(
    mut branches: Vec<Branch>,
    head: Statement,
    nodes: Vec<Node>,
) -> Result<Vec<Branch>, Unfit>
    ensures { n.Makes (λ x. branches_of (map branch x.items)) result (Some (n.put_branch (branches_of (map branch branches.items)) (f.statement head) (body nodes.items))) }
{
    let body = List::of(nodes);
    branches.push(Branch { head, body })?;
    Ok(branches)
}

/// With a node at the end of the innermost body.
fn add(mut open: Inside, item: Node) -> Result<Inside, Unfit>
    ensures { n.Makes n.inside result (Some (n.add (n.inside «open») (node item))) }
{
    open.nodes.push(item)?;
    Ok(open)
}

/// With a block that has ended as a node at the end of the body that holds it.
fn add_around(outer: Box<Frame>, before: Vec<Node>, item: Node) -> Result<Inside, Unfit>
    ensures { n.Makes n.inside result (Some (n.add (n.around outer.value (body before.items)) (node item))) }
{
    let frame = outer;
    let nodes = before;
    add(Inside { frame, nodes }, item)
}

fn is_empty(nodes: &[Node]) -> bool
    ensures { result ≡ n.is_empty (body nodes.now) }
{
    match nodes {
        [] => true,
        [_, ..] => false,
    }
}

/// Whether nothing stands behind the head of a unit.
fn is_bare(none: &Option<Statement>, declarations: &[Statement], nodes: &[Node]) -> bool
    ensures { result ≡ n.is_bare (option_map f.statement none.now) (map f.statement declarations.now) (body nodes.now) }
{
    match none {
        Some(_) => false,
        None => match declarations {
            [] => is_empty(nodes),
            _ => false,
        },
    }
}

/// IMPLICIT NONE stands first in a unit, and once.
fn implicit(mut open: Inside, statement: Statement) -> Result<Inside, Unfit>
    ensures { n.Makes n.inside result (n.implicit (n.inside «open») (f.statement statement)) }
{
    match &mut *open.frame {
        Frame::Unit {
            none,
            declarations,
            ..
        } => {
            if !is_bare(none, declarations.as_slice(), open.nodes.as_slice()) {
                return Err(Unfit::Misfit);
            }
            *none = Some(statement);
            Ok(open)
        }
        _ => Err(Unfit::Misfit),
    }
}

/// Declarations stand before the executable statements.
fn declare(mut open: Inside, statement: Statement) -> Result<Inside, Unfit>
    ensures { n.Makes n.inside result (n.declare (n.inside «open») (f.statement statement)) }
{
    match &mut *open.frame {
        Frame::Unit { declarations, .. } => {
            if !is_empty(open.nodes.as_slice()) {
                return Err(Unfit::Misfit);
            }
            declarations.push(statement)?;
            Ok(open)
        }
        _ => Err(Unfit::Misfit),
    }
}

/// What is open where a body begins.
fn body_begun(alloc: Global, frame: Frame) -> Result<Inside, Unfit>
    ensures { n.Makes n.inside result (Some (n.around frame Empty)) }
{
    let frame = Box::new(alloc, frame)?;
    let nodes = Vec::new(alloc);
    Ok(Inside { frame, nodes })
}

fn else_if(alloc: Global, open: Inside, statement: Statement) -> Result<Inside, Unfit>
    ensures { n.Makes n.inside result (n.else_if (n.inside «open») (f.statement statement)) }
{
    let Inside { frame, nodes } = open;
    match Box::into_inner(frame) {
        Frame::If {
            outer,
            before,
            branches,
            head,
        } => {
            let branches = branched(branches, head, nodes)?;
            let head = statement;
            let frame = Frame::If {
                outer,
                before,
                branches,
                head,
            };
            body_begun(alloc, frame)
        }
        _ => Err(Unfit::Misfit),
    }
}

fn otherwise(alloc: Global, open: Inside, statement: Statement) -> Result<Inside, Unfit>
    ensures { n.Makes n.inside result (n.otherwise (n.inside «open») (f.statement statement)) }
{
    let Inside { frame, nodes } = open;
    match Box::into_inner(frame) {
        Frame::If {
            outer,
            before,
            branches,
            head,
        } => {
            let branches = branched(branches, head, nodes)?;
            let head = statement;
            let frame = Frame::Else {
                outer,
                before,
                branches,
                head,
            };
            body_begun(alloc, frame)
        }
        _ => Err(Unfit::Misfit),
    }
}

fn if_node(branches: Vec<Branch>, end: Statement) -> Node
    ensures { node result ≡ NIf (branches_of (map branch branches.items)) (f.statement end) }
{
    Node::If(List::of(branches), None, end)
}

fn else_node(branches: Vec<Branch>, head: Statement, nodes: Vec<Node>, end: Statement) -> Node
    ensures { node result ≡ NElse (branches_of (map branch branches.items)) (f.statement head) (body nodes.items) (f.statement end) }
{
    let body = List::of(nodes);
    Node::If(List::of(branches), Some(Branch { head, body }), end)
}

/// The IF construct that END IF ends, put into what is open around it.
fn end_if(open: Inside, statement: Statement) -> Result<Inside, Unfit>
    ensures { n.Makes n.inside result (n.end_if (n.inside «open») (f.statement statement)) }
{
    let Inside { frame, nodes } = open;
    match Box::into_inner(frame) {
        Frame::If {
            outer,
            before,
            branches,
            head,
        } => {
            let branches = branched(branches, head, nodes)?;
            add_around(outer, before, if_node(branches, statement))
        }
        Frame::Else {
            outer,
            before,
            branches,
            head,
        } => add_around(outer, before, else_node(branches, head, nodes, statement)),
        _ => Err(Unfit::Misfit),
    }
}

/// Whether an END DO or END DOALL ends a loop with this head.
fn ends_loop(head: Role, end: Role) -> bool
    ensures { result ≡ n.ends_loop head end }
{
    matches!(
        (head, end),
        (Role::Do, Role::EndDo) | (Role::Doall, Role::EndDoall)
    )
}

/// The loop that the statement ends, put into what is open around it.
fn end_loop(open: Inside, statement: Statement, end: Role) -> Result<Inside, Unfit>
    ensures { n.Makes n.inside result (n.end_loop (n.inside «open») (f.statement statement) end) }
{
    let Inside { frame, nodes } = open;
    match Box::into_inner(frame) {
        Frame::Loop {
            outer,
            before,
            head,
        } => {
            if !ends_loop(role_of(&head.form), end) {
                return Err(Unfit::Misfit);
            }
            let body = List::of(nodes);
            add_around(outer, before, Node::Loop(head, body, statement))
        }
        _ => Err(Unfit::Misfit),
    }
}

/// A unit of which only the head was read.
pub(crate) fn unit_opened(alloc: Global, head: Statement) -> Result<Inside, Unfit>
    ensures { n.Makes n.inside result (Some (n.Top (f.statement head) None [] Empty)) }
{
    let frame = Frame::Unit {
        head,
        none: None,
        declarations: Vec::new(alloc),
    };
    body_begun(alloc, frame)
}

fn if_opened(alloc: Global, open: Inside, head: Statement) -> Result<Inside, Unfit>
    ensures { n.Makes n.inside result (Some (n.InIf (n.inside «open») BNone (f.statement head) Empty)) }
{
    let frame = Frame::If {
        outer: open.frame,
        before: open.nodes,
        branches: Vec::new(alloc),
        head,
    };
    body_begun(alloc, frame)
}

fn loop_opened(alloc: Global, open: Inside, head: Statement) -> Result<Inside, Unfit>
    ensures { n.Makes n.inside result (Some (n.InLoop (n.inside «open») (f.statement head) Empty)) }
{
    let frame = Frame::Loop {
        outer: open.frame,
        before: open.nodes,
        head,
    };
    body_begun(alloc, frame)
}

/// What is open after a further statement of the unit, which is no END of it.
pub(crate) fn step_in(
    alloc: Global,
    role: Role,
    open: Inside,
    statement: Statement,
) -> Result<Inside, Unfit>
    ensures { n.Makes n.inside result (n.step_in role (n.inside «open») (f.statement statement)) }
{
    match role {
        Role::Plain => add(open, Node::Plain(statement)),
        Role::If => if_opened(alloc, open, statement),
        Role::Do => loop_opened(alloc, open, statement),
        Role::Doall => loop_opened(alloc, open, statement),
        Role::ImplicitNone => implicit(open, statement),
        Role::Declaration => declare(open, statement),
        Role::ElseIf => else_if(alloc, open, statement),
        Role::Else => otherwise(alloc, open, statement),
        Role::EndIf => end_if(open, statement),
        Role::EndDo => end_loop(open, statement, Role::EndDo),
        Role::EndDoall => end_loop(open, statement, Role::EndDoall),
        Role::Program | Role::Subroutine | Role::End => Err(Unfit::Misfit),
    }
}

/// The unit that the END ends: no block of it may be open.
pub(crate) fn close(open: Inside, end: Statement) -> Result<UnitText, Unfit>
    ensures { n.Makes unit result (n.close (n.inside «open») (f.statement end)) }
{
    let Inside { frame, nodes } = open;
    match Box::into_inner(frame) {
        Frame::Unit {
            head,
            none,
            declarations,
        } => {
            if !ends(&head.form, &end.form) {
                return Err(Unfit::Misfit);
            }
            let declarations = List::of(declarations);
            let body = List::of(nodes);
            Ok(UnitText {
                head,
                none,
                declarations,
                body,
                end,
            })
        }
        _ => Err(Unfit::Misfit),
    }
}
