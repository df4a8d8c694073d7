// What a rewind finds out of a pair.
ghost use Rattle.pair_laws.specs.Survey.{PairHasParted, PairIsNeeded};

/// A survey of a pair finds that the two have parted where the common checkpoint ends.
pub fn pair_has_parted()
    ensures { PairHasParted }
{}

/// The rewind of a pair's target to its source is needed, and nothing refuses it.
pub fn pair_is_needed()
    ensures { PairIsNeeded }
{}
