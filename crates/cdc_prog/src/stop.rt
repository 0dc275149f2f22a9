// Why a program stops, and its end: what still waits is handed on, and the end is answered.
ghost use Rattle.std.specs.Prelude.{◌≡◌};
ghost use Rattle.cdc_prog.specs.Answers.{IsHandedOn, answer_of};
ghost use Rattle.cdc_prog.specs.Output.{output_of};

use crate::fault::Fault;
use crate::plain::Plain;
use cdc_base::{Gathered, Sink, SinkFault};

/// Why a program stops early.
#[derive(Clone, Copy)]
pub enum Stop {
    /// A fault of the program.
    Faulted(Fault),
    /// The sink failed.
    Sink,
}

impl From<Fault> for Stop {
    ghost use Rattle.std.specs.Prelude.{◌≡◌};
    ghost use Rattle.cdc_prog.specs.declared.stop.Stop.TheVariants.{Faulted};

    ghost from_gives = { λ fault e. e ≡ Faulted fault };

    fn from(fault: Fault) -> Stop {
        Stop::Faulted(fault)
    }
}

impl From<SinkFault> for Stop {
    ghost use Rattle.std.specs.Prelude.{◌≡◌};
    ghost use Rattle.cdc_prog.specs.declared.stop.Stop.TheVariants.{Sink as SinkFailed};

    ghost from_gives = { λ _ e. e ≡ SinkFailed };

    fn from(_fault: SinkFault) -> Stop {
        Stop::Sink
    }
}

/// Hands what still waits to the sink at the end of a program, where the sink has not failed before.
///
/// # Errors
///
/// Why the program stopped early, or that the sink failed when it had taken a front of what waited.
pub fn hand_on<K: Sink>(
    end: Result<(), Stop>,
    gathered: &mut Gathered,
    out: &mut K,
) -> Result<(), Stop>
    ensures { IsHandedOn end (output_of (K.taken out.old) gathered.old (K.faults out.old)) result (K.taken out.new) (K.faults out.new) }
{
    if let Err(Stop::Sink) = end {
        return end;
    }
    gathered.flush(out)?;
    end
}

/// The answer to an end.
pub fn answer(end: Result<(), Stop>) -> Plain
    ensures { result ≡ answer_of end }
{
    match end {
        Ok(()) => Plain::Done,
        Err(Stop::Faulted(fault)) => Plain::Fault(fault.kind, fault.line),
        Err(Stop::Sink) => Plain::SinkFault,
    }
}
