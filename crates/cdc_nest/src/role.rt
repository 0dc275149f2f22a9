//! What a statement is to the units and blocks that it stands in.

ghost use Rattle.std.specs.Prelude.{◌≡◌};
ghost use Rattle.cdc_tree.specs.Forms as f;
ghost use Rattle.cdc_nest.specs.Roles as s;

use cdc_base::List;
use cdc_tree::{Ending, Form, Named};

#[derive(Clone, Copy)]
pub enum Role {
    Program,
    Subroutine,
    ImplicitNone,
    Declaration,
    /// An executable statement that opens and closes nothing.
    Plain,
    If,
    ElseIf,
    Else,
    EndIf,
    Do,
    EndDo,
    Doall,
    EndDoall,
    End,
}

pub(crate) fn role_of(form: &Form) -> Role
    ensures { result ≡ s.role (f.form form.now) }
{
    match form {
        Form::Program(_) => Role::Program,
        Form::Subroutine(_, _) => Role::Subroutine,
        Form::End(_) => Role::End,
        Form::ImplicitNone => Role::ImplicitNone,
        Form::Integer(_) => Role::Declaration,
        Form::Parameter(_) => Role::Declaration,
        Form::Assign(_, _) => Role::Plain,
        Form::IfThen(_) => Role::If,
        Form::ElseIf(_) => Role::ElseIf,
        Form::Else => Role::Else,
        Form::EndIf => Role::EndIf,
        Form::LogicalIf(_, _) => Role::Plain,
        Form::Do(_) => Role::Do,
        Form::EndDo => Role::EndDo,
        Form::Doall(_, _) => Role::Doall,
        Form::EndDoall => Role::EndDoall,
        Form::Call(_, _) => Role::Plain,
        Form::Print(_) => Role::Plain,
        Form::Read(_) => Role::Plain,
    }
}

fn same_name(a: &List<u8>, b: &List<u8>) -> bool
    ensures { result ≡ s.same_name a.now b.now }
{
    a.as_slice() == b.as_slice()
}

/// Whether the name after END, if there is one, is the unit's.
fn names_unit(name: &Named, end: &Option<Named>) -> bool
    ensures { result ≡ s.names_unit name.now end.now }
{
    match end {
        None => true,
        Some(end) => same_name(&name.name, &end.name),
    }
}

/// Whether the END ends the program of this name.
fn ends_program(name: &Named, ending: &Ending) -> bool
    ensures { result ≡ s.ends_program name.now ending.now }
{
    match ending {
        Ending::Plain => true,
        Ending::Program(end) => names_unit(name, end),
        Ending::Subroutine(_) => false,
    }
}

/// Whether the END ends the subroutine of this name.
fn ends_subroutine(name: &Named, ending: &Ending) -> bool
    ensures { result ≡ s.ends_subroutine name.now ending.now }
{
    match ending {
        Ending::Plain => true,
        Ending::Subroutine(end) => names_unit(name, end),
        Ending::Program(_) => false,
    }
}

/// Whether what is written after END ends the unit with this head.
fn ends_head(head: &Form, ending: &Ending) -> bool
    ensures { result ≡ s.ends_head (f.form head.now) ending.now }
{
    match head {
        Form::Program(name) => ends_program(name, ending),
        Form::Subroutine(name, _) => ends_subroutine(name, ending),
        Form::End(_) => false,
        Form::ImplicitNone
        | Form::Integer(_)
        | Form::Parameter(_)
        | Form::Assign(_, _)
        | Form::IfThen(_)
        | Form::ElseIf(_)
        | Form::Else
        | Form::EndIf
        | Form::LogicalIf(_, _)
        | Form::Do(_)
        | Form::EndDo
        | Form::Doall(_, _)
        | Form::EndDoall
        | Form::Call(_, _)
        | Form::Print(_)
        | Form::Read(_) => false,
    }
}

/// Whether the statement ends the unit with this head.
pub(crate) fn ends(head: &Form, end: &Form) -> bool
    ensures { result ≡ s.ends (f.form head.now) (f.form end.now) }
{
    match end {
        Form::End(ending) => ends_head(head, ending),
        Form::Program(_) => false,
        Form::Subroutine(_, _) => false,
        Form::ImplicitNone
        | Form::Integer(_)
        | Form::Parameter(_)
        | Form::Assign(_, _)
        | Form::IfThen(_)
        | Form::ElseIf(_)
        | Form::Else
        | Form::EndIf
        | Form::LogicalIf(_, _)
        | Form::Do(_)
        | Form::EndDo
        | Form::Doall(_, _)
        | Form::EndDoall
        | Form::Call(_, _)
        | Form::Print(_)
        | Form::Read(_) => false,
    }
}

/// Whether the statement opens a block.
pub(crate) fn opens(role: Role) -> bool
    ensures { result ≡ s.opens role }
{
    match role {
        Role::If | Role::Do | Role::Doall => true,
        _ => false,
    }
}

/// Whether the statement closes a block.
pub(crate) fn closes(role: Role) -> bool
    ensures { result ≡ s.closes role }
{
    match role {
        Role::EndIf | Role::EndDo | Role::EndDoall => true,
        _ => false,
    }
}
