//! Laws: what holds of the definitions, whatever calls them.

ghost use Rattle.restored_laws.specs.Laws.{BackIsAlike, BackKeepsBlocks, LaidIsBegunFrom, LaidIsLeft, ListsAreClosed, RestoredIsBack};

/// What is listed of a cluster is closed, as what is brought back of it has to be.
pub fn lists_are_closed()
    ensures { ListsAreClosed }
{}

/// The mark and the copies of a replay stand beside all that its list tells of.
pub fn laid_is_begun_from()
    ensures { LaidIsBegunFrom }
{}

/// The copies are of what stood when they were laid, through all that a replay changes.
pub fn laid_is_left()
    ensures { LaidIsLeft }
{}

/// What is brought back is what stood there before the replay, but for the bytes of main forks' files,
/// which are as many.
pub fn restored_is_back()
    ensures { RestoredIsBack }
{}

/// A cluster that is brought back is alike the one that the replay began from.
pub fn back_is_alike()
    ensures { BackIsAlike }
{}

/// A block that a stop left as it stood before stands there again.
pub fn back_keeps_blocks()
    ensures { BackKeepsBlocks }
{}
