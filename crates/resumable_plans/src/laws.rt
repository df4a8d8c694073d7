// What follows from the definitions: the functions' contracts are laws.
ghost use Rattle.resumable_plans.specs.Laws.{MarkedStopsAreBetween, PlansAreInGroups, PlansAreSound, ResumesLeaveTheRewoundTree, ResumesStayInTheTarget, StoppedPlansAreResumed};

/// Where two clusters were walked and paired, the changes of the plan are in groups, one on each path.
pub fn plans_are_in_groups()
    ensures { PlansAreInGroups }
{}

/// So it can be resumed once its mark stands, whatever text that holds.
pub fn plans_are_sound()
    ensures { PlansAreSound }
{}

/// However often a rewind was stopped under its mark, the next resume isn't refused, and ends with the
/// rewound tree.
pub fn resumes_leave_the_rewound_tree()
    ensures { ResumesLeaveTheRewoundTree }
{}

/// Outside the target's root all is as it was before the rewind, and a resume changes nothing there.
pub fn resumes_stay_in_the_target()
    ensures { ResumesStayInTheTarget }
{}

/// What a stop left under the mark is between the start and the end of the rewind.
pub fn marked_stops_are_between()
    ensures { MarkedStopsAreBetween }
{}

/// Where a stop of the first run left a mark that reads as complete, that holds the text which was
/// given, and the resume isn't refused and ends with the rewound tree.
pub fn stopped_plans_are_resumed()
    ensures { StoppedPlansAreResumed }
{}
