// What holds of tasks and paths, each on a call.
ghost use Rattle.std.specs.Prelude.{◌≡◌, [], ◌∷◌, ◌++◌, true};
ghost use Rattle.cdc_prog.specs.Data.{zeros};
ghost use Rattle.cdc_prog.specs.Alone.{accesses};
ghost use Rattle.cdc_prog.specs.Units.{process_of};
ghost use Rattle.cdc_prog.specs.Resolved.{IsResolved, HasNoCall};
ghost use Rattle.cdc_prog.specs.Premises.{KeepsLoopVariables, IsUnaliased};
ghost use Rattle.cdc_prog.specs.Iterations.{KeepsIndexes};
ghost use Rattle.cdc_path.specs.References.{Touches};
ghost use Rattle.cdc_along.specs.Sections.{LiesInSection, EachInOrder};
ghost use Rattle.cdc_prog.specs.Examples.{nested, first_loop};
ghost use Rattle.cdc_path.specs.Courses.{IsPath};
ghost use Rattle.cdc_path.specs.Covers.{HasCover};
ghost use Rattle.cdc_along.specs.Sites.{SitesStandOnce};
ghost use Rattle.cdc_along.specs.Tasks.{passed};
ghost use Rattle.cdc_along.specs.Examples.{up_to_entry, in_iteration, whole, looped, second_to_fourth, printed, raised, first_two, words_at};
ghost use Rattle.cdc_along.specs.Laws.{ProgramsGoAlong, TasksLieAlong, PassedIsOnPath, SectionsHold, SectionsOverlap, CoversAreAccessed, WritesAreTold};

/// On every store a resolved program goes along its own paths, and so does each of its reached tasks by itself, from where
/// it starts to where it ends. What a task has passed is the beginning of a path, so that its writes count for later reads
/// and lead to later boundaries.
pub fn along()
    ensures programs { ProgramsGoAlong }
    ensures tasks { TasksLieAlong }
    ensures passed { PassedIsOnPath }
{}

/// Each access of a program without CALL lies in the section of its site, and where two are of one word their sections
/// overlap.
pub fn sections()
    ensures hold { SectionsHold }
    ensures overlap { SectionsOverlap }
{}

/// A read of a program without CALL that has a cover is of a word that its task has accessed.
pub fn covers()
    ensures { CoversAreAccessed }
{}

/// The marks and written lists of a program tell of each write that its tasks have passed, before a read of the same word
/// and before a boundary.
pub fn marks()
    ensures { WritesAreTold }
{}

/// A program with two CALLs to a unit that calls another, in which a DOALL stands; one with a DOALL in a DO; one with a
/// cover; and one with a DO over a dummy for an object in COMMON, in which a CALL stores by its own name. The
/// last has no aliases in a unit, and no unit stores in its DO variable; yet an access is of a third element, outside of the
/// section, which is the first two.
pub fn examples()
    ensures resolved { IsResolved nested }
    ensures whole { IsPath nested whole }
    ensures iteration { passed (accesses (first_loop nested 1) zeros) (up_to_entry (3 ∷ 1 ∷ [])) ≡ in_iteration (3 ∷ 1 ∷ []) ++ up_to_entry (3 ∷ 1 ∷ []) }
    ensures looped { IsResolved looped × HasNoCall looped × KeepsLoopVariables looped × KeepsIndexes looped }
    ensures section { Touches looped true [] 6 1 second_to_fourth }
    ensures lies { EachInOrder (LiesInSection looped) (process_of looped []) zeros }
    ensures cover { SitesStandOnce printed × HasCover printed 2 }
    ensures raised { IsResolved raised × KeepsLoopVariables raised × IsUnaliased raised × Touches raised true (1 ∷ []) 3 1 first_two }
    ensures words { words_at 3 (accesses (process_of raised []) zeros) ≡ 3 ∷ 3 ∷ [] }
    ensures entry { IsPath nested (up_to_entry (3 ∷ 1 ∷ [])) → ⊥ }
{}
