// The copy of a pair, before a replay.
ghost use Rattle.pair_laws.specs.Start.{CopyStarts};

/// The copy of a pair passes every check before a replay, which begins at the common checkpoint with
/// the source's whole log.
pub fn copy_starts()
    ensures { CopyStarts }
{}
