// Laws of the definitions, each on a function that does nothing.
ghost use Rattle.cdc_replay.specs.Ample.{EveryAmpleRunEnds};
ghost use Rattle.cdc_replay.specs.Direct.{EventsTellCounts, EnginesCountDirectly};

/// A run ends by itself where its bound is ample, the tail gives the processors turns, and no listed line is bad.
pub fn ample()
    ensures { EveryAmpleRunEnds }
{}

/// On a memory without caches the events tell what each processor is counted as, and which of them are idle.
pub fn direct()
    ensures memory { EventsTellCounts }
    ensures engine { EnginesCountDirectly }
{}
