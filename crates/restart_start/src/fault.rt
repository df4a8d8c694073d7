// Why a replay that can be started again isn't begun.
use block_refs::BlockName;
use clusters::ClusterFault;
use file_walk::WalkFault;
use replay_start::ReplayFault;
use thiserror::Error;

/// Why a replay that can be started again isn't begun.
#[derive(Debug, Drop, Error)]
pub enum RestartFault {
    /// What refuses any replay.
    #[error("{0}")]
    Replay(ReplayFault),
    /// What is wrong at or below the folders that replay changes.
    #[error("{0}")]
    Walk(WalkFault),
    /// A block of a main fork of which the log changes the page that stands there, before it puts an image in its
    /// place, makes it anew or takes it away: behind a stop it could not be known whether that was done.
    #[error("{0} is changed before it is made anew")]
    NotRestartable(BlockName),
}

impl From<ReplayFault> for RestartFault {
    ghost use Rattle.std.specs.Prelude.{◌≡◌};
    ghost use Rattle.restart_start.specs.declared.fault.RestartFault.TheVariants as fault;

    ghost from_gives = { λ cause e. e ≡ fault.Replay cause };

    fn from(cause: ReplayFault) -> RestartFault {
        RestartFault::Replay(cause)
    }
}

impl From<WalkFault> for RestartFault {
    ghost use Rattle.std.specs.Prelude.{◌≡◌};
    ghost use Rattle.restart_start.specs.declared.fault.RestartFault.TheVariants as fault;

    ghost from_gives = { λ cause e. e ≡ fault.Walk cause };

    fn from(cause: WalkFault) -> RestartFault {
        RestartFault::Walk(cause)
    }
}

impl From<ClusterFault> for RestartFault {
    ghost use Rattle.std.specs.Prelude.{◌≡◌};
    ghost use Rattle.replay_start.specs.declared.fault.ReplayFault.TheVariants as replay;
    ghost use Rattle.restart_start.specs.declared.fault.RestartFault.TheVariants as fault;

    ghost from_gives = { λ cause e. e ≡ fault.Replay (replay.Cluster cause) };

    fn from(cause: ClusterFault) -> RestartFault {
        RestartFault::Replay(ReplayFault::Cluster(cause))
    }
}
