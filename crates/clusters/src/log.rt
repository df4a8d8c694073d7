// Where the log of a cluster lies, and the size of its segments.
ghost use Rattle.std.specs.Prelude.{◌≡◌, ◌≤◌, length, IfErr, IfOk, Some};
ghost use Rattle.control_file.specs.Admission.{IsControl};
ghost use Rattle.wal_base.specs.Segment.{bytes_of};
ghost use Rattle.wal_base.specs.SizeOfBytes.{size_of_bytes};
ghost use Rattle.clusters.specs.RootLog.{log_at};

use crate::ClusterFault;
use crate::paths::wal_folder;
use cluster_tree::Path;
use control_file::Control;
use std::alloc::Global;
use wal_base::{SegSize, Spans};
use wal_pages::LogPath;

/// The size of the segments of a cluster's log.
#[tactic(auto, using(crate::proofs::RoomLemmas::size_steps))]
pub fn segment_size(control: &Control) -> SegSize
    requires { IsControl control.now }
    ensures value { bytes_of result ≡ control.now.walSegSize }
    ensures exact { size_of_bytes control.now.walSegSize ≡ Some result }
{
    match SegSize::new(control.walSegSize) {
        Some(size) => size,
        None => unreachable!(),
    }
}

/// Where the log of a cluster lies, of these timelines and this size: in `pg_wal`, written by this
/// system where one is wanted. Answers `OutOfMemory` only for want of memory.
pub fn log_path(
    alloc: Global,
    root: &Path,
    system: Option<u64>,
    spans: Spans,
    size: SegSize,
) -> Result<LogPath, ClusterFault>
    requires { length root.now.parts ≤ 61 }
    ensures value { IfOk result (λ log. log ≡ log_at root.now system spans size) }
    ensures memory { IfErr result (λ e. e ≡ ClusterFault.OutOfMemory) }
{
    Ok(LogPath {
        folder: wal_folder(alloc, root)?,
        spans,
        size,
        system,
    })
}
