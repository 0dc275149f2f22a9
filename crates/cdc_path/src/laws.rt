// What holds of paths, and of marks and lists, each on a call.
ghost use Rattle.cdc_path.specs.Laws.{UncalledIsOneUnit, MarksAreOne, WrittenListsIncrease, WrittenListsAreOfObjects};

/// The paths of a program without CALL are those of its main unit.
pub fn uncalled()
    ensures { UncalledIsOneUnit }
{}

/// A program has one list of marks and one pair of written lists. A written list is strictly increasing, and that of a
/// resolved program has its objects alone.
pub fn one_marks()
    ensures one { MarksAreOne }
    ensures increasing { WrittenListsIncrease }
    ensures objects { WrittenListsAreOfObjects }
{}
