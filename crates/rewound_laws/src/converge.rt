// A rewound target that follows its source.
ghost use Rattle.rewound_laws.specs.Converge.{RewoundConverges};

/// Where target and source grew from one state, replay of the source's log from the common checkpoint
/// gives below the rewound target what it gives below a whole copy of the source, as a comparison takes
/// it.
pub fn rewound_converges()
    ensures { RewoundConverges }
{}
