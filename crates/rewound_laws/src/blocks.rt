// The blocks of a rewound target and of a whole copy of its source.
ghost use Rattle.rewound_laws.specs.Blocks.{BlocksFit, CopyHasKinds, RewoundBlocks};

/// A block of a rewound target is the source's, or else the target's own, which isn't wanted.
pub fn rewound_blocks()
    ensures { RewoundBlocks }
{}

/// Where target and source grew from one state, the blocks of both the rewound target and a whole copy
/// of the source fit it, before either replays the source's log.
pub fn blocks_fit()
    ensures { BlocksFit }
{}

/// A whole copy of a source has entries of the kinds that servers leave, where the source has.
pub fn copies_have_kinds()
    ensures { CopyHasKinds }
{}
