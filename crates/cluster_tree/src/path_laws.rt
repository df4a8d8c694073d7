// What follows from the definition of a path, for callers: each function's contract is a law.
ghost use Rattle.cluster_tree.specs.PathLaws.{TextReadsBack, TextTellsPath, PartsAreProper, PartIsKept, PartIsAdmitted};

/// A path is read back from its text, which so tells it.
pub fn text_laws()
    ensures back { TextReadsBack }
    ensures told { TextTellsPath }
{}

/// The parts of a text are proper, and a proper part is a text of itself alone.
pub fn part_laws()
    ensures proper { PartsAreProper }
    ensures kept { PartIsKept }
    ensures admitted { PartIsAdmitted }
{}
