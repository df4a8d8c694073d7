//! Laws: what holds of the definitions, whatever calls them.

ghost use Rattle.restart_laws.specs.Laws.{AgainEndsAsFirst, BackIsStopped, BegunLateIsBegun, EndedIsDone, LeftIsOneRun, MayBeginAgain, ReplayIsBeside, ReplayingIsStopped, RestartedIsDone, RestartedIsOneRun, StartsAreTheSame, StoppedIsLeft, StoppedIsTaken, StoppedKeepsMark, StopsAreOne};

/// What a replay leaves as it was is all but what is brought back where it is begun again.
pub fn replay_is_beside()
    ensures { ReplayIsBeside }
{}

/// So what a stop of a replay that can be started again leaves while it replays is what stops may leave.
pub fn replaying_is_stopped()
    ensures { ReplayingIsStopped }
{}

/// A stop of a replay leaves its mark and its copies as they were.
pub fn stopped_keeps_mark()
    ensures { StoppedKeepsMark }
{}

/// So a stop leaves the copies of what stood before, and all that a replay doesn't change.
pub fn stopped_is_left()
    ensures { StoppedIsLeft }
{}

/// So what a stop left is taken up, with the list that the replay was begun from.
pub fn stopped_is_taken()
    ensures { StoppedIsTaken }
{}

/// What is brought back of what a stop left passes or fails the checks of a replay as what that replay
/// was begun from.
pub fn starts_are_the_same()
    ensures { StartsAreTheSame }
{}

/// So a replay may begin of it, with the same start and the same list.
pub fn may_begin_again()
    ensures { MayBeginAgain }
{}

/// A replay over what is brought back of what a stop left ends as the replay that was stopped would have.
pub fn again_ends_as_first()
    ensures { AgainEndsAsFirst }
{}

/// What is brought back of what a stop left is again what a stop may leave.
pub fn back_is_stopped()
    ensures { BackIsStopped }
{}

/// So is what a further stop leaves, however often a replay is stopped.
pub fn stops_are_one()
    ensures { StopsAreOne }
{}

/// So where a replay is done that takes up what a stop left, it leaves and tells what the first would have
/// left and told.
pub fn restarted_is_done()
    ensures { RestartedIsDone }
{}

/// And where it was stopped behind its last record, so does the one that removes its mark and copies.
pub fn ended_is_done()
    ensures { EndedIsDone }
{}

/// Either is what one run leaves that begins where that replay was begun, and isn't stopped.
pub fn left_is_one_run()
    ensures { LeftIsOneRun }
{}

/// So the runs that were stopped and the one that was done leave and tell together what one run does that
/// isn't stopped.
pub fn restarted_is_one_run()
    ensures { RestartedIsOneRun }
{}

/// Where a stop left no whole mark, one that is done then leaves what one may leave that begins where
/// nothing was laid.
pub fn begun_late_is_begun()
    ensures { BegunLateIsBegun }
{}
