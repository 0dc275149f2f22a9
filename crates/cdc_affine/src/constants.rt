// Trees without references.
ghost use Rattle.std.specs.Prelude.{◌≡◌};
ghost use Rattle.cdc_prog.specs.Affine.{constant};
ghost use Rattle.cdc_prog.specs.Translation.{expr_of};

use cdc_prog::{Expr, binary, unary};

/// The value of a tree without references that does not fault.
pub fn constant(e: &Expr) -> Option<i64>
    ensures { result ≡ constant (expr_of e.now) }
{
    match e {
        Expr::Number(n) => Some(*n),
        Expr::Un(op, a) => {
            let x = constant(a)?;
            unary(*op, x).ok()
        }
        Expr::Bin(op, a, b) => {
            let x = constant(a)?;
            let y = constant(b)?;
            binary(*op, x, y).ok()
        }
        _ => None,
    }
}
