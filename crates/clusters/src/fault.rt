// What is wrong with a cluster.
use cluster_tree::{OutOfMemory, Path};
use control_file::Field;
use std::alloc::AllocError;
use thiserror::Error;

/// Why what a cluster says isn't known. The paths but of `Unfinished` and `Changed` are its root.
#[derive(Debug, Drop, Error)]
pub enum ClusterFault {
    /// The mark of an unfinished run stands at this path.
    #[error("an unfinished run left {0}")]
    Unfinished(Path),
    /// `global/pg_control` is not a file below this root.
    #[error("{0} has no control file")]
    ControlMissing(Path),
    /// The root, and the number of bytes of its control file, which is not 8192.
    #[error("the control file of {0} has {1} bytes")]
    Size(Path, u64),
    /// The root, the checksum stored in its control file, and the one computed.
    #[error("the control file of {0} has the checksum {1:08X} and not {2:08X}")]
    Crc(Path, u32, u32),
    /// The root, and the version of its control file, which is not 1300.
    #[error("the control file of {0} has version {1}")]
    Version(Path, u32),
    /// The root, and the catalog version in its control file, which is not 202307071.
    #[error("the control file of {0} has catalog version {1}")]
    Catalog(Path, u32),
    /// The root, a field of its control file, and the field's value, which is out of shape.
    #[error("the control file of {0} has {2} as {1}")]
    Shape(Path, Field, u64),
    /// The root, and a timeline whose history is not a file there.
    #[error("{0} has no history of timeline {1}")]
    HistoryMissing(Path, u32),
    /// The root, a timeline, and the number of the line of its history that is no entry.
    #[error("line {2} of the history of timeline {1} of {0} is no entry")]
    BadLine(Path, u32, u64),
    /// The root, a timeline, and the number of the line of its history that doesn't rise.
    #[error("line {2} of the history of timeline {1} of {0} doesn't rise")]
    NotRising(Path, u32, u64),
    /// A read of the device failed.
    #[error("a read failed")]
    ReadFault,
    /// The tree contradicted, about this path, what it had answered before.
    #[error("{0} was changed during the run")]
    Changed(Path),
    /// Memory is wanting.
    #[error("out of memory")]
    OutOfMemory,
}

impl From<OutOfMemory> for ClusterFault {
    ghost use Rattle.std.specs.Prelude.{◌≡◌};
    ghost use Rattle.clusters.specs.declared.fault.ClusterFault.TheVariants as fault;

    ghost from_gives = { λ _ e. e ≡ fault.OutOfMemory };

    fn from(_: OutOfMemory) -> ClusterFault {
        ClusterFault::OutOfMemory
    }
}

impl From<wal_base::OutOfMemory> for ClusterFault {
    ghost use Rattle.std.specs.Prelude.{◌≡◌};
    ghost use Rattle.clusters.specs.declared.fault.ClusterFault.TheVariants as fault;

    ghost from_gives = { λ _ e. e ≡ fault.OutOfMemory };

    fn from(_: wal_base::OutOfMemory) -> ClusterFault {
        ClusterFault::OutOfMemory
    }
}

impl From<AllocError> for ClusterFault {
    ghost use Rattle.std.specs.Prelude.{◌≡◌};
    ghost use Rattle.clusters.specs.declared.fault.ClusterFault.TheVariants as fault;

    ghost from_gives = { λ _ e. e ≡ fault.OutOfMemory };

    fn from(_: AllocError) -> ClusterFault {
        ClusterFault::OutOfMemory
    }
}
