//! The statements that are read and not built yet: SUBROUTINE and CALL.

ghost use Rattle.std.specs.Prelude.{◌≡◌, map, MatchOption};
ghost use Rattle.cdc_tree.specs.Forms.{form, statement};
ghost use Rattle.cdc_tree.specs.Order.{InOrder};
ghost use Rattle.cdc_check.specs.Built.{is_unbuilt, AllBuilt};
ghost use Rattle.cdc_compile.specs.Unbuilt.{IsLeastUnbuilt};

use cdc_tree::{Form, Statement};

fn is_unbuilt(written: &Form) -> bool
    ensures { result ≡ is_unbuilt (form written.now) }
{
    match written {
        Form::Subroutine(_, _) | Form::Call(_, _) => true,
        Form::LogicalIf(_, simple) => is_unbuilt(&simple.form),
        Form::Program(_)
        | Form::End(_)
        | Form::ImplicitNone
        | Form::Integer(_)
        | Form::Parameter(_)
        | Form::Assign(_, _)
        | Form::IfThen(_)
        | Form::ElseIf(_)
        | Form::Else
        | Form::EndIf
        | Form::Do(_)
        | Form::EndDo
        | Form::Doall(_, _)
        | Form::EndDoall
        | Form::Print(_)
        | Form::Read(_) => false,
    }
}

/// The line of the first statement that is not built yet.
pub(crate) fn first_unbuilt(statements: &[Statement]) -> Option<u32>
    requires { InOrder (map statement statements.now) }
    ensures { MatchOption result (AllBuilt (map statement statements.now)) (λ line. IsLeastUnbuilt (map statement statements.now) line) }
{
    let mut rest = statements;
    while let [first, after @ ..] = rest {
        if is_unbuilt(&first.form) {
            return Some(first.place.line);
        }
        rest = after;
    }
    None
}
