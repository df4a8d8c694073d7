// Relations with an init fork.
ghost use Rattle.cluster_laws.specs.Unlogged.{InitGoesWhole, GoneForgets, UnloggedConverge};

/// A record that takes the first file of a relation's init fork away takes each block of its main fork
/// away; so what a log leaves of the block behind it doesn't hang on what stood there before.
pub fn init_forks_go_whole()
    ensures record { InitGoesWhole }
    ensures log { GoneForgets }
{}

/// So of two clusters in which a relation has an init fork before a log and none behind it, and of
/// which no record changes a block, replays that aren't refused leave the same page of it.
pub fn unlogged_blocks_converge()
    ensures { UnloggedConverge }
{}
