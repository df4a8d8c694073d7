// What follows from the definitions: the functions' contracts are laws.
ghost use Rattle.rewind_plan.specs.Laws.{PlansAreNotRefused, PlansFindWhatTheyRead, PlansLeaveTheMark, PlansLeaveTheRewoundTree, WalksAreSides};

/// Where two clusters were walked and paired, and no kinds differ, no change of the plan is refused in
/// its turn.
pub fn plans_are_not_refused()
    ensures { PlansAreNotRefused }
{}

/// Then the plan's changes leave the rewound tree below the target's root, path by path.
pub fn plans_leave_the_rewound_tree()
    ensures { PlansLeaveTheRewoundTree }
{}

/// What the plan's steps read is there, and none of its changes is on it.
pub fn plans_find_what_they_read()
    ensures { PlansFindWhatTheyRead }
{}

/// No change of the plan under its mark is on it.
pub fn plans_leave_the_mark()
    ensures { PlansLeaveTheMark }
{}

/// Two clusters that lie apart, of which no run is unfinished and whose control files were read, and
/// which were walked and paired without kinds that differ, are such.
pub fn walks_are_sides()
    ensures { WalksAreSides }
{}
