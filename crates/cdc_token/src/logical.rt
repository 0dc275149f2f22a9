//! The logical lines of a source.

ghost use Rattle.std.specs.Prelude.{◌≤◌, length, IfOk, IfErr};
ghost use Rattle.cdc_token.specs.Logical.{AreLogicalLines};
ghost use Rattle.cdc_token.specs.Refusals.{IsRefused};

use crate::fault::in_line;
use crate::gathered::Gathered;
use crate::line::take_line;
use crate::lines::Lines;
use crate::physical::first_line;
use crate::token::LexRefusal;
use std::alloc::Global;

/// The logical lines of a source of at most 262,144 bytes: its tokens, with their places, up to each `;` and to each end of
/// a line that is not continued (ISO/IEC 1539:1991, section 3.3.1).
///
/// # Errors
///
/// A source that has a fault is refused by its first one; at one place `LineLong` is first. `Memory` may come at any time.
pub fn logical_lines(alloc: Global, source: &[u8]) -> Result<Lines, LexRefusal>
    requires { length source.now ≤ 262144 }
    ensures ok { IfOk result (λ logical. AreLogicalLines source.now logical) }
    ensures refused { IfErr result (λ e. IsRefused source.now e) }
{
    let mut gathered = Gathered::new(alloc);
    let mut rest = source;
    let mut number = 1;
    let mut goes_on = false;
    while !rest.is_empty() {
        let (line, after) = first_line(rest);
        goes_on = match take_line(&mut gathered, alloc, number, goes_on, line) {
            Ok(still) => still,
            Err(refusal) => return Err(in_line(number, refusal)),
        };
        number += 1;
        rest = after;
    }
    match gathered.close() {
        Ok(()) => Ok(gathered.into_lines()),
        Err(_) => Err(LexRefusal::Memory),
    }
}
