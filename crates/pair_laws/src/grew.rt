// That a pair grew from one state.
ghost use Rattle.pair_laws.specs.Grew.{PairsFollow, PairsGrewFromOneState};
ghost use Rattle.pair_laws.specs.Stands.{PairHasCopy};

/// The copy of a pair stands at its own root.
pub fn pair_has_copy()
    ensures { PairHasCopy }
{}

/// The copy of a pair is a whole copy of its source, and target and source grew from one state.
pub fn pairs_grew_from_one_state()
    ensures { PairsGrewFromOneState }
{}

/// Once the target of a pair is rewound, it follows its source: replay of the source's log ends below
/// it as below the copy, and leaves the same cluster.
pub fn pairs_follow()
    ensures { PairsFollow }
{}
