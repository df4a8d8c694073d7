// A fork that is cut, and a relation.
ghost use Rattle.storage_laws.specs.CutLaws.{CutBlocks, CutWhole, TruncatedBlocks};

/// What each block is once `truncate` has cut a relation, and once a fork of one is cut.
pub fn cut_laws()
    ensures blocks { CutBlocks }
    ensures whole { CutWhole }
    ensures truncated { TruncatedBlocks }
{}
