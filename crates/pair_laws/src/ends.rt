// A pair that is tried in one tree.
ghost use Rattle.pair_laws.specs.Ends.{CopyStays, PairsEndTheSame};

/// Whatever is done to a pair's target alone, its copy stands as it did.
pub fn copy_stays()
    ensures { CopyStays }
{}

/// Where in one tree a pair's target is rewound and then replayed, and the copy behind it, what is left
/// at both is the same cluster.
pub fn pairs_end_the_same()
    ensures { PairsEndTheSame }
{}
