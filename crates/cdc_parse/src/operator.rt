//! Signs and operators of expressions and conditions (ISO/IEC 1539:1991, section 7.3), and how
//! tightly they bind.

ghost use Rattle.std.specs.Prelude.{◌≡◌};
ghost use Rattle.cdc_parse.specs.Tokens.{Sees};
ghost use Rattle.cdc_parse.specs.Operators.{sign_of, sign_rank, sign_in, sign_at, operator_of, rank, operator_in, operator_at};

use cdc_base::Place;
use cdc_prog::BinOp;
use cdc_token::{Lexed, Symbol, Token};

/// An operator before its one operand.
#[derive(Clone, Copy, Debug, PartialEq, Eq)]
pub enum Sign {
    Plus,
    Minus,
    Not,
}

fn sign_of(symbol: Symbol) -> Option<Sign>
    ensures { result ≡ sign_of symbol }
{
    match symbol {
        Symbol::Plus => Some(Sign::Plus),
        Symbol::Minus => Some(Sign::Minus),
        Symbol::Not => Some(Sign::Not),
        _ => None,
    }
}

fn sign_rank(sign: Sign) -> u32
    ensures { result ≡ sign_rank sign }
{
    match sign {
        Sign::Plus => 1,
        Sign::Minus => 1,
        Sign::Not => 3,
    }
}

fn operator_of(symbol: Symbol) -> Option<BinOp>
    ensures { result ≡ operator_of symbol }
{
    match symbol {
        Symbol::Star => Some(BinOp::Mul),
        Symbol::Slash => Some(BinOp::Div),
        Symbol::Plus => Some(BinOp::Add),
        Symbol::Minus => Some(BinOp::Sub),
        Symbol::Eq => Some(BinOp::Eq),
        Symbol::Ne => Some(BinOp::Ne),
        Symbol::Lt => Some(BinOp::Lt),
        Symbol::Le => Some(BinOp::Le),
        Symbol::Gt => Some(BinOp::Gt),
        Symbol::Ge => Some(BinOp::Ge),
        Symbol::And => Some(BinOp::And),
        Symbol::Or => Some(BinOp::Or),
        _ => None,
    }
}

/// From the operators that bind tightest; `.NOT.` has rank 3. Mod, Min and Max stand between no
/// operands.
fn rank(op: BinOp) -> u32
    ensures { result ≡ rank op }
{
    match op {
        BinOp::Mul | BinOp::Div => 0,
        BinOp::Add | BinOp::Sub => 1,
        BinOp::Eq | BinOp::Ne | BinOp::Lt | BinOp::Le | BinOp::Gt | BinOp::Ge => 2,
        BinOp::And => 4,
        BinOp::Or => 5,
        BinOp::Mod | BinOp::Min | BinOp::Max => 9,
    }
}

/// The sign of this rank that the tokens begin with, its place, and the tokens after it.
pub(crate) fn sign_at(height: u32, tokens: &[Lexed]) -> Option<(Sign, Place, &[Lexed])>
    ensures { Sees (λ x. (x.0, x.1, x.2.now)) result (sign_at height tokens.now) }
{
    match tokens {
        [] => None,
        [first, rest @ ..] => match sign_in(height, &first.token) {
            Some(sign) => Some((sign, first.place, rest)),
            None => None,
        },
    }
}

/// The sign of this rank that the token is.
fn sign_in(height: u32, token: &Token) -> Option<Sign>
    ensures { result ≡ sign_in height token.now }
{
    match token {
        Token::Symbol(symbol) => match sign_of(*symbol) {
            Some(sign) => {
                if sign_rank(sign) == height {
                    Some(sign)
                } else {
                    None
                }
            }
            None => None,
        },
        _ => None,
    }
}

/// The operator of this rank that the token is.
fn operator_in(height: u32, token: &Token) -> Option<BinOp>
    ensures { result ≡ operator_in height token.now }
{
    match token {
        Token::Symbol(symbol) => match operator_of(*symbol) {
            Some(op) => { if rank(op) == height { Some(op) } else { None } }
            None => None,
        },
        _ => None,
    }
}

/// The operator of this rank that the tokens begin with, and the tokens after it.
pub(crate) fn operator_at(height: u32, tokens: &[Lexed]) -> Option<(BinOp, &[Lexed])>
    ensures { Sees (λ x. (x.0, x.1.now)) result (operator_at height tokens.now) }
{
    match tokens {
        [] => None,
        [first, rest @ ..] => match operator_in(height, &first.token) {
            Some(op) => Some((op, rest)),
            None => None,
        },
    }
}
