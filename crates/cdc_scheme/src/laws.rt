//! The law of schemes, over all that can happen.

ghost use Rattle.cdc_scheme.specs.History.{CopiesAreYoung};

use crate::Scheme;

/// Whatever fills, writes, evictions and boundaries come from the start on: where each boundary's list holds the object of
/// each write of the epoch that it ends, a marked read uses a copy only while it is young. A copy that stays valid past a
/// boundary keeps its true time.
pub fn copies_are_young<S: Scheme>()
    ensures { CopiesAreYoung S.Scheme }
{}
