// Laws of the definitions, each on a function that does nothing.
ghost use Rattle.cdc_code.specs.Laws.{CodeFollows, CodeNames, CodeRuns, CodeIsSound};
ghost use Rattle.cdc_code.specs.Examples.{ExamplesAreCoded};

/// The code of a resolved program does what the program does, for every value that a load may give, with at most eight
/// instructions for each tick of the cost and eight more. So each of its tasks, alone on any store, makes the accesses
/// that its trees make, and its one-memory run has the sequential output and end. Where the program keeps to the room of
/// a task, each frame that the code comes to does, and the code names slots and texts that are there.
pub fn code()
    ensures follows { CodeFollows }
    ensures names { CodeNames }
    ensures runs { CodeRuns }
    ensures sound { CodeIsSound }
{}

/// The code of some programs is as it is written out, and runs.
pub fn examples()
    ensures { ExamplesAreCoded }
{}
