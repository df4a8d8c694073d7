// Why a pair that was begun isn't tried to its end.
ghost use Rattle.std.specs.Prelude.{◌≡◌, ◌⊎◌};
ghost use Rattle.cluster_compare.specs.Faults.{IsFree as IsFreeOfCompare, IsReadFault};
ghost use Rattle.cluster_tree.specs.PathValue.{PathValue};
ghost use Rattle.clusters.specs.Faults.{IsFree as IsFreeOfCluster};
ghost use Rattle.clusters.specs.declared.fault.ClusterFault.TheVariants as cluster;
ghost use Rattle.pair_maker.specs.Pair.{IsOfPair};
ghost use Rattle.run_acts.specs.Causes.{IsFree};
ghost use Rattle.cmd_pair.specs.Tried.{IsFreeReplay, IsFreeRewind, IsOfTrial};

use cluster_compare::CompareFault;
use cluster_tree::{FileFault, Path};
use clusters::ClusterFault;
use file_walk::WalkFault;
use replay_core::ReplayFault;
use rewind_core::RewindFault;
use run_acts::Cause;
use std::alloc::Global;

/// What is left of a pair isn't what was made of it: the tree was changed meanwhile, in this folder.
pub(crate) fn changed(alloc: Global, root: &Path) -> Cause
    ensures { (result ≡ Cause.Changed root.now) ⊎ (result ≡ Cause.OutOfMemory) }
{
    match root.copy(alloc) {
        Ok(path) => Cause::Changed(path),
        Err(_) => Cause::OutOfMemory,
    }
}

/// The cause of a pair that wasn't made.
pub(crate) fn make_cause(alloc: Global, root: &Path, fault: FileFault) -> Cause
    ensures trial { IsOfTrial result }
    ensures write { result ≡ Cause.WriteFault → fault ≡ FileFault.WriteFault }
    ensures read { result ≡ Cause.ReadFault → fault ≡ FileFault.ReadFault }
    ensures changed { (p : PathValue) → IsOfPair fault → result ≡ Cause.Changed p →
        fault ≡ FileFault.Changed p }
{
    match fault {
        FileFault::ReadFault => Cause::ReadFault,
        FileFault::WriteFault => Cause::WriteFault,
        FileFault::OutOfMemory => Cause::OutOfMemory,
        FileFault::Changed(path) => Cause::Changed(path),
        _ => changed(alloc, root),
    }
}

// The cause of what a cluster's root says, or doesn't.
fn cluster_cause(alloc: Global, root: &Path, fault: ClusterFault) -> Cause
    ensures trial { IsOfTrial result }
    ensures free { IsFreeOfCluster fault → IsFree result }
    ensures write { result ≡ Cause.WriteFault → ⊥ }
    ensures read { result ≡ Cause.ReadFault → fault ≡ ClusterFault.ReadFault }
{
    match fault {
        ClusterFault::ReadFault => Cause::ReadFault,
        ClusterFault::OutOfMemory => Cause::OutOfMemory,
        ClusterFault::Changed(path) => Cause::Changed(path),
        _ => changed(alloc, root),
    }
}

/// The cause of a rewind that broke off, or was refused.
pub(crate) fn rewind_cause(alloc: Global, root: &Path, fault: RewindFault) -> Cause
    ensures trial { IsOfTrial result }
    ensures free { IsFreeRewind fault → IsFree result }
    ensures write { result ≡ Cause.WriteFault → fault ≡ RewindFault.WriteFault }
    ensures read { result ≡ Cause.ReadFault → fault ≡ RewindFault.Cluster cluster.ReadFault }
{
    match fault {
        RewindFault::Cluster(fault) => cluster_cause(alloc, root, fault),
        RewindFault::WriteFault => Cause::WriteFault,
        _ => changed(alloc, root),
    }
}

/// The cause of a replay that broke off, or was refused.
pub(crate) fn replay_cause(alloc: Global, root: &Path, fault: ReplayFault) -> Cause
    ensures trial { IsOfTrial result }
    ensures free { IsFreeReplay fault → IsFree result }
    ensures write { result ≡ Cause.WriteFault → fault ≡ ReplayFault.WriteFault }
    ensures read { result ≡ Cause.ReadFault → fault ≡ ReplayFault.Cluster cluster.ReadFault }
{
    match fault {
        ReplayFault::Cluster(fault) => cluster_cause(alloc, root, fault),
        ReplayFault::WriteFault => Cause::WriteFault,
        _ => changed(alloc, root),
    }
}

// The cause of a fault of files that a comparison met.
fn file_cause(alloc: Global, root: &Path, fault: FileFault) -> Cause
    ensures trial { IsOfTrial result }
    ensures free { IsFreeOfCompare (CompareFault.File fault) → IsFree result }
    ensures read { result ≡ Cause.ReadFault → fault ≡ FileFault.ReadFault }
    ensures write { result ≡ Cause.WriteFault → ⊥ }
{
    match fault {
        FileFault::ReadFault => Cause::ReadFault,
        FileFault::OutOfMemory => Cause::OutOfMemory,
        FileFault::Changed(path) => Cause::Changed(path),
        _ => changed(alloc, root),
    }
}

/// The cause of a comparison that broke off, or was refused.
pub(crate) fn compare_cause(alloc: Global, root: &Path, fault: CompareFault) -> Cause
    ensures trial { IsOfTrial result }
    ensures free { IsFreeOfCompare fault → IsFree result }
    ensures read { result ≡ Cause.ReadFault → IsReadFault fault }
    ensures write { result ≡ Cause.WriteFault → ⊥ }
{
    match fault {
        CompareFault::Cluster(fault) => cluster_cause(alloc, root, fault),
        CompareFault::Walk(WalkFault::File(fault)) => file_cause(alloc, root, fault),
        CompareFault::File(fault) => file_cause(alloc, root, fault),
        _ => changed(alloc, root),
    }
}
