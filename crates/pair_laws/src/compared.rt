// What a comparison finds of a pair that was tried.
ghost use Rattle.pair_laws.specs.Compared.{PairsCompareTheSame};

/// Where in one tree a pair's target is rewound and then replayed, and the copy behind it, a comparison
/// of the two is refused by nothing, and finds no difference.
pub fn pairs_compare_the_same()
    ensures { PairsCompareTheSame }
{}
