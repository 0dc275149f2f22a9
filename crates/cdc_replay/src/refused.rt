//! The end of a run whose next event is refused.

ghost use Rattle.std.specs.Prelude.{◌≡◌};
ghost use Rattle.cdc_replay.specs.Refused.{refused_end};

use cdc_epoch::Outcome;
use cdc_sched::EventRefusal;

/// The end of a run whose next event is refused.
pub fn refused(refusal: EventRefusal) -> Outcome
    ensures { result ≡ refused_end refusal }
{
    match refusal {
        EventRefusal::BadEvent(line) => Outcome::BadEvent(line),
        EventRefusal::ReadFault => Outcome::ReadFault,
    }
}
