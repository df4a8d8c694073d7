// What follows from the definitions: the functions' contracts are laws.
ghost use Rattle.resumed_laws.specs.Laws.{ResumedStopsAreBetween, ResumesAreNotRefused, ResumesFindWhatTheyRead, ResumesLeaveTheSame, StopsAreBetween};

/// However far a rewind ran, a stop leaves it between its start and its end.
pub fn stops_are_between()
    ensures { StopsAreBetween }
{}

/// And so does a stop of a rewind that is resumed from there.
pub fn resumed_stops_are_between()
    ensures { ResumedStopsAreBetween }
{}

/// From between its start and its end nothing refuses what a resume changes, in turn.
pub fn resumes_are_not_refused()
    ensures { ResumesAreNotRefused }
{}

/// What a resume reads is there, and no change of it is on that.
pub fn resumes_find_what_they_read()
    ensures { ResumesFindWhatTheyRead }
{}

/// A resume leaves what the first run would have left.
pub fn resumes_leave_the_same()
    ensures { ResumesLeaveTheSame }
{}
