// A block that is written.
ghost use Rattle.storage_laws.specs.WrittenLaws.{WrittenBlocks, WrittenPages};

/// What each block is once `write_block` has written one.
pub fn written_laws()
    ensures blocks { WrittenBlocks }
    ensures pages { WrittenPages }
{}
