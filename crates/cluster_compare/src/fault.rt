// Why clusters aren't compared.
use cluster_tree::{FileFault, OutOfMemory};
use clusters::ClusterFault;
use file_walk::WalkFault;
use thiserror::Error;

/// Why two clusters aren't compared.
#[derive(Debug, Drop, Error)]
pub enum CompareFault {
    /// A mark of an unfinished run stands at a root, or the first cluster's control file is
    /// refused.
    #[error("{0}")]
    Cluster(ClusterFault),
    /// Something below a root is refused.
    #[error("{0}")]
    Walk(WalkFault),
    /// The second root is no folder, a read failed, the tree contradicted itself about a path, or
    /// memory was wanting.
    #[error("{0}")]
    File(FileFault),
}

impl From<ClusterFault> for CompareFault {
    ghost use Rattle.std.specs.Prelude.{◌≡◌};
    ghost use Rattle.cluster_compare.specs.declared.fault.CompareFault.TheVariants as fault;

    ghost from_gives = { λ cause e. e ≡ fault.Cluster cause };

    fn from(cause: ClusterFault) -> CompareFault {
        CompareFault::Cluster(cause)
    }
}

impl From<WalkFault> for CompareFault {
    ghost use Rattle.std.specs.Prelude.{◌≡◌};
    ghost use Rattle.cluster_compare.specs.declared.fault.CompareFault.TheVariants as fault;

    ghost from_gives = { λ cause e. e ≡ fault.Walk cause };

    fn from(cause: WalkFault) -> CompareFault {
        CompareFault::Walk(cause)
    }
}

impl From<FileFault> for CompareFault {
    ghost use Rattle.std.specs.Prelude.{◌≡◌};
    ghost use Rattle.cluster_compare.specs.declared.fault.CompareFault.TheVariants as fault;

    ghost from_gives = { λ cause e. e ≡ fault.File cause };

    fn from(cause: FileFault) -> CompareFault {
        CompareFault::File(cause)
    }
}

impl From<OutOfMemory> for CompareFault {
    ghost use Rattle.std.specs.Prelude.{◌≡◌};
    ghost use Rattle.cluster_tree.specs.declared.file_fault.FileFault.TheVariants as file;
    ghost use Rattle.cluster_compare.specs.declared.fault.CompareFault.TheVariants as fault;

    ghost from_gives = { λ _ e. e ≡ fault.File file.OutOfMemory };

    fn from(_: OutOfMemory) -> CompareFault {
        CompareFault::File(FileFault::OutOfMemory)
    }
}
