// The operators of the language over constants.
ghost use Rattle.std.specs.Prelude.{◌≡◌};
ghost use Rattle.cdc_names.specs.Constants.{single, both};

use cdc_prog::{BinOp, UnOp, binary, unary};

/// What an operator of one operand gives, where the operand has a value and none faults.
pub fn single(op: UnOp, a: Option<i64>) -> Option<i64>
    ensures { result ≡ single op a }
{
    match a {
        None => None,
        Some(a) => unary(op, a).ok(),
    }
}

/// What an operator of two operands gives, where both have values and none faults.
pub fn both(op: BinOp, a: Option<i64>, b: Option<i64>) -> Option<i64>
    ensures { result ≡ both op a b }
{
    match (a, b) {
        (Some(a), Some(b)) => binary(op, a, b).ok(),
        (Some(_), None) => None,
        (None, _) => None,
    }
}
