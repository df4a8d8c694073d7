// Clusters whose files of main forks have whole blocks alone.
ghost use Rattle.replayed_bytes.specs.Laws.{AlikeHaveWholeBlocks, WalkedHaveWholeBlocks};

/// Where a walk of a cluster whose paths are of proper parts finds nothing wrong, each file of a main
/// fork has whole blocks alone.
pub fn walked_have_whole_blocks()
    ensures { WalkedHaveWholeBlocks }
{}

/// Where one of two alike clusters has whole blocks alone in files of main forks, so has the other.
pub fn alike_have_whole_blocks()
    ensures { AlikeHaveWholeBlocks }
{}
