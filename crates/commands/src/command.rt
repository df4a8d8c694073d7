// A command with what its words ask for.
use crate::{
    ArchivecleanupWords, ControldataWords, PairWords, ResetwalWords, RewindWords, WalcompareWords,
    WaldumpWords, WalreplayWords,
};

/// A command with what its words ask for.
#[derive(Drop)]
pub enum Command {
    /// pg_rewind.
    Rewind(RewindWords),
    /// pg_rewind --resume.
    Resume(RewindWords),
    /// pg_waldump.
    Waldump(WaldumpWords),
    /// pg_controldata.
    Controldata(ControldataWords),
    /// pg_resetwal.
    Resetwal(ResetwalWords),
    /// pg_archivecleanup.
    Archivecleanup(ArchivecleanupWords),
    /// pg_walreplay.
    Walreplay(WalreplayWords),
    /// pg_walreplay --restart.
    Restart(WalreplayWords),
    /// pg_walcompare.
    Walcompare(WalcompareWords),
    /// pair.
    Pair(PairWords),
}
