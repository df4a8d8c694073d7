// Why a replay that can be started again ends.
use block_refs::BlockName;
use cluster_tree::{FileFault, OutOfMemory, Path};
use file_walk::WalkFault;
use replay_core::{ReplayFault, of_file};
use restart_start::RestartFault as StartFault;
use stored_replay::StoredReplayFault;
use thiserror::Error;

/// Why a replay that can be started again ends.
#[derive(Debug, Drop, Error)]
pub enum RestartFault {
    /// What refuses any replay, or breaks it off, also while its mark and copies are laid or removed.
    #[error("{0}")]
    Replay(ReplayFault),
    /// What is wrong at or below the folders that replay changes.
    #[error("{0}")]
    Walk(WalkFault),
    /// The root, and the number, from 1, of the first line of the list in its mark that isn't of its
    /// form or at its place, or of the line behind the last where the list doesn't end.
    #[error("line {1} of the list in the mark of {0} is at fault")]
    BadPlan(Path, u64),
    /// The copy of a file, which isn't there with the size that the list tells.
    #[error("{0} is not the copy that the mark tells of")]
    ShadowDiffers(Path),
    /// The least block of a main fork of which the log changes the page that stands there first.
    #[error("{0} is changed before it is made anew")]
    NotRestartable(BlockName),
}

impl From<ReplayFault> for RestartFault {
    ghost use Rattle.std.specs.Prelude.{◌≡◌};
    ghost use Rattle.replay_restart.specs.declared.fault.RestartFault.TheVariants as fault;

    ghost from_gives = { λ cause e. e ≡ fault.Replay cause };

    fn from(cause: ReplayFault) -> RestartFault {
        RestartFault::Replay(cause)
    }
}

impl From<FileFault> for RestartFault {
    ghost use Rattle.std.specs.Prelude.{◌≡◌};
    ghost use Rattle.replay_restart.specs.Faults.{of_files};

    ghost from_gives = { λ cause e. e ≡ of_files cause };

    fn from(cause: FileFault) -> RestartFault {
        RestartFault::Replay(of_file(cause))
    }
}

impl From<OutOfMemory> for RestartFault {
    ghost use Rattle.std.specs.Prelude.{◌≡◌};
    ghost use Rattle.cluster_tree.specs.declared.file_fault.FileFault.TheVariants as file;
    ghost use Rattle.replay_restart.specs.Faults.{of_files};

    ghost from_gives = { λ _ e. e ≡ of_files file.OutOfMemory };

    fn from(_: OutOfMemory) -> RestartFault {
        RestartFault::from(FileFault::OutOfMemory)
    }
}

impl From<StoredReplayFault> for RestartFault {
    ghost use Rattle.std.specs.Prelude.{◌≡◌};
    ghost use Rattle.replay_restart.specs.Faults.{of_stored};

    ghost from_gives = { λ cause e. e ≡ of_stored cause };

    fn from(cause: StoredReplayFault) -> RestartFault {
        match cause {
            StoredReplayFault::Cluster(fault) => {
                RestartFault::Replay(ReplayFault::Cluster(fault))
            }
            StoredReplayFault::BadPlan(root, number) => RestartFault::BadPlan(root, number),
            StoredReplayFault::ShadowDiffers(path) => RestartFault::ShadowDiffers(path),
        }
    }
}

impl From<StartFault> for RestartFault {
    ghost use Rattle.std.specs.Prelude.{◌≡◌};
    ghost use Rattle.replay_restart.specs.Faults.{of_start};

    ghost from_gives = { λ cause e. e ≡ of_start cause };

    fn from(cause: StartFault) -> RestartFault {
        match cause {
            StartFault::Replay(fault) => RestartFault::Replay(fault),
            StartFault::Walk(fault) => RestartFault::Walk(fault),
            StartFault::NotRestartable(name) => RestartFault::NotRestartable(name),
        }
    }
}
