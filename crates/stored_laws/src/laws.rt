// What follows from the definitions: the functions' contracts are laws.
ghost use Rattle.stored_laws.specs.Laws.{StoppedResumesAreResumed, StoppedRewindsAreResumed, StoppedRewindsAreStored, StoredPlansAreReadable, StoredPlansKeepTheMark, StoredPlansStayInTheTarget};

/// Where a stop of a rewind left a mark that reads as complete, what is read from it is the plan of that
/// rewind, and nothing refuses it.
pub fn stopped_rewinds_are_stored()
    ensures { StoppedRewindsAreStored }
{}

/// And that plan, done again, isn't refused and ends with the rewound tree of the first run.
pub fn stopped_rewinds_are_resumed()
    ensures { StoppedRewindsAreResumed }
{}

/// A stop of that resume leaves what is on its way again, so that the next one takes it up, or the
/// rewound tree.
pub fn stopped_resumes_are_resumed()
    ensures { StoppedResumesAreResumed }
{}

/// What a resume changes by a plan that a mark holds is of the target, and not its mark before that is
/// ended; and where no file of the source differs from what it says, it can be done again.
pub fn stored_plans_are_sound()
    ensures of_target { StoredPlansStayInTheTarget }
    ensures mark { StoredPlansKeepTheMark }
    ensures readable { StoredPlansAreReadable }
{}
