// Lengths of forks, and reading.
ghost use Rattle.storage_laws.specs.LengthLaws.{CutLength, LengthIsFirstAbsent, ReadsBlocks, ReadsWhole, WrittenLength};

/// What `length` and `read_block` answer, by which blocks are there, and the length once a block is
/// written or a fork is cut.
pub fn length_laws()
    ensures length { LengthIsFirstAbsent }
    ensures reads { ReadsBlocks }
    ensures whole { ReadsWhole }
    ensures written { WrittenLength }
    ensures cut { CutLength }
{}
