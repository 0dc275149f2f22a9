//! Calls on any memory side.

ghost use Rattle.std.specs.Prelude.{◌<◌, ◌≤◌};

use crate::kind::Kind;
use cdc_fabric::{Counts, Fabric};
use cdc_prog::Mark;

/// What a list of calls came to.
#[derive(Debug, Drop)]
pub struct Outcome {
    /// The counts of processor 0.
    pub counts: Counts,
    /// The sum of the values that were loaded; it wraps.
    pub sum: i64,
}

/// Makes so many calls for processor 0. Each third call stores its own number, counted from 0; the others load.
pub fn make_calls<F: Fabric>(side: &mut F, calls: u32, kind: Kind) -> Outcome
    requires proc { 0 < F.procs side.old }
    requires words { 4096 ≤ F.words side.old }
{
    let mut sum: i64 = 0;
    for turn in 0..calls {
        let word = kind.word(turn);
        if turn % 3 == 2 {
            side.store(0, word, i64::from(turn));
        } else {
            sum = sum.wrapping_add(side.load(0, word, Mark::Ordinary));
        }
    }
    Outcome {
        counts: side.counts(0),
        sum,
    }
}
