// Laws of the definitions, each on a function that does nothing.
ghost use Rattle.cdc_machine.specs.Laws.{EveryInterleaving, EveryRunEnds};

/// Whatever the processors do and when: the machine prints the sequential output, each task does a front of what it does
/// alone, and a DOALL leaves what its iterations leave in order.
pub fn interleavings()
    ensures { EveryInterleaving }
{}

/// The steps, takings and closings are bounded by the full cost, whatever the processors do; where they act in turn, the
/// program ends.
pub fn ends()
    ensures { EveryRunEnds }
{}
