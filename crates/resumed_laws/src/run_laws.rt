// What follows of whole runs: the functions' contracts are laws.
ghost use Rattle.resumed_laws.specs.Stopped.{StoppedRewindsEndTheSame};
ghost use Rattle.resumed_laws.specs.RunLaws.{EndsStayBetween, MarkedPlansAreSound, ResumesAreOnTheSamePaths, ResumesStayBetween, RunsStayBetween, SyncedRunsStand, WholeResumes};

/// A plan in groups that a rewind may carry out is sound once its mark is made.
pub fn marked_plans_are_sound()
    ensures { MarkedPlansAreSound }
{}

/// Changes that end in a sync, once they are done, leave nothing else to a stop.
pub fn synced_runs_stand()
    ensures { SyncedRunsStand }
{}

/// However far a rewind ran under its mark, it is between its start and its end, and a stop at any
/// moment leaves it so.
pub fn runs_stay_between()
    ensures { RunsStayBetween }
{}

/// And so is a rewind that is resumed.
pub fn resumes_stay_between()
    ensures { ResumesStayBetween }
{}

/// While the mark is ended a stop leaves what one could have left before, or the contents without the mark.
pub fn ends_stay_between()
    ensures { EndsStayBetween }
{}

/// What no change of the first run is on, as its mark, is as it was, and no change of a resume is on it.
pub fn resumes_are_on_the_same_paths()
    ensures { ResumesAreOnTheSamePaths }
{}

/// With the sync before it and the end of its mark, a resume isn't refused and leaves what the first run
/// would have left.
pub fn whole_resumes()
    ensures { WholeResumes }
{}

/// However often a rewind was stopped, and stopped again while it was resumed, the next resume isn't
/// refused and ends as the first run would have.
pub fn stopped_rewinds_end_the_same()
    ensures { StoppedRewindsEndTheSame }
{}
