// A rewound target beside a whole copy of its source.
ghost use Rattle.rewound_laws.specs.Alike.{RewoundIsAlike};

/// A whole copy of a rewind's source and the rewound target are alike but for the pages of their
/// relations.
pub fn rewound_is_alike()
    ensures { RewoundIsAlike }
{}
