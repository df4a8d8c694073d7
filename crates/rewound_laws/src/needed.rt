// What is found out of two clusters before a rewind.
ghost use Rattle.rewound_laws.specs.Needed.{PlannedIsNeeded};

/// Where a rewind is needed, each point of it was passed, and what is written is of what they found.
pub fn planned_is_needed()
    ensures { PlannedIsNeeded }
{}
