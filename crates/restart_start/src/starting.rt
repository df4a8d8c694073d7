// What a replay that can be started again begins from.
ghost use Rattle.std.specs.Prelude.{◌≡◌, ◌≢◌, ◌<◌, ◌≤◌, Err, IfOk, IsErrOf, IsTrue, length};
ghost use Rattle.cluster_tree.specs.Causes.{Rose};
ghost use Rattle.cluster_tree.specs.Frame.{Reads};
ghost use Rattle.cluster_tree.specs.PathValue.{PathValue};
ghost use Rattle.cluster_tree.specs.declared.file_fault.FileFault.TheVariants as file;
ghost use Rattle.clusters.specs.Roots.{wal_folder};
ghost use Rattle.clusters.specs.declared.fault.ClusterFault.TheVariants as cluster;
ghost use Rattle.control_file.specs.Admission.{IsControl};
ghost use Rattle.file_walk.specs.declared.fault.WalkFault.TheVariants as walk;
ghost use Rattle.replay_list.specs.Laws.{IsListOf};
ghost use Rattle.replay_start.specs.declared.fault.ReplayFault.TheVariants as replay;
ghost use Rattle.restart_start.specs.Beginning.{Begins, without_own};
ghost use Rattle.rmgr_hooks.specs.Custom.{handed_in};
ghost use Rattle.wal_records.specs.Cursor.{Knows};
ghost use Rattle.without_file.specs.Without.{without_file};

use crate::fault::RestartFault;
use crate::gather::first_changed;
use cluster_tree::{Path, Tree};
use clusters::path_in;
use replay_areas::{AreaList, list_areas};
use replay_start::{Checked, ReplayFault, check};
use rmgr_hooks::Manager;
use std::alloc::Global;
use without_file::WithoutFile;

/// What a replay that can be started again begins from.
#[derive(Drop)]
pub struct Beginning {
    /// What was checked, as before any replay.
    pub checked: Checked,
    /// What stands at or below the folders that replay changes, and the label.
    pub listed: AreaList,
}

// Checks, lists, and asks for the least block that is changed first.
fn begin<F: Tree, M: Manager>(
    alloc: Global,
    tree: &mut F,
    root: &Path,
    custom: Option<&M>,
) -> Result<Beginning, RestartFault>
    requires room { length root.now.parts ≤ 61 }
    ensures exact { IsTrue F.tells → Begins (handed_in M.Manager custom.entry) (F.contents tree.old)
        root.now result }
    ensures knows { IsTrue F.tells →
        IfOk result (λ begun. Knows begun.checked.cursor (F.contents tree.new)) }
    ensures control { IfOk result (λ begun. IsControl begun.checked.control) }
    ensures folder { IfOk result (λ begun. begun.checked.cursor.log.folder ≡ wal_folder root.now) }
    ensures listed { IsTrue F.tells → IfOk result (λ begun. IsListOf root.now begun.listed) }
    ensures reads { Reads F.Tree tree.old tree.new }
    ensures replay_fault { IsErrOf result (RestartFault.Replay (replay.Cluster cluster.ReadFault)) →
        Rose (F.failed_reads tree.old) (F.failed_reads tree.new) }
    ensures walk_fault { IsErrOf result (RestartFault.Walk (walk.File file.ReadFault)) →
        Rose (F.failed_reads tree.old) (F.failed_reads tree.new) }
    // a walk only reads
    ensures walk_reads { result ≢ Err (RestartFault.Walk (walk.File file.WriteFault)) }
    ensures changed { IsTrue F.tells → (p : PathValue) →
        (result ≢ Err (RestartFault.Replay (replay.Cluster (cluster.Changed p))))
        × (result ≢ Err (RestartFault.Walk (walk.File (file.Changed p)))) }
    ensures never_writes { result ≢ Err (RestartFault.Replay replay.WriteFault) }
{
    let mut checked = check(alloc, tree, root, custom)?;
    let listed = list_areas(alloc, tree, root)?;
    match first_changed(alloc, tree, &mut checked, custom)? {
        Some(name) => Err(RestartFault::NotRestartable(name)),
        None => Ok(Beginning { checked, listed }),
    }
}

// The same, as if no file stood at this path.
fn begin_without<F: Tree, M: Manager>(
    alloc: Global,
    tree: &mut F,
    mark: &Path,
    root: &Path,
    custom: Option<&M>,
) -> Result<Beginning, RestartFault>
    requires deep { 0 < length mark.now.parts }
    requires room { length root.now.parts ≤ 61 }
    ensures exact { IsTrue F.tells → Begins (handed_in M.Manager custom.entry)
        (without_file (F.contents tree.old) mark.now) root.now result }
    ensures knows { IsTrue F.tells → IfOk result
        (λ begun. Knows begun.checked.cursor (without_file (F.contents tree.new) mark.now)) }
    ensures control { IfOk result (λ begun. IsControl begun.checked.control) }
    ensures folder { IfOk result (λ begun. begun.checked.cursor.log.folder ≡ wal_folder root.now) }
    ensures listed { IsTrue F.tells → IfOk result (λ begun. IsListOf root.now begun.listed) }
    ensures reads { Reads F.Tree tree.old tree.new }
    ensures replay_fault { IsErrOf result (RestartFault.Replay (replay.Cluster cluster.ReadFault)) →
        Rose (F.failed_reads tree.old) (F.failed_reads tree.new) }
    ensures walk_fault { IsErrOf result (RestartFault.Walk (walk.File file.ReadFault)) →
        Rose (F.failed_reads tree.old) (F.failed_reads tree.new) }
    // a walk only reads
    ensures walk_reads { result ≢ Err (RestartFault.Walk (walk.File file.WriteFault)) }
    ensures changed { IsTrue F.tells → (p : PathValue) →
        (result ≢ Err (RestartFault.Replay (replay.Cluster (cluster.Changed p))))
        × (result ≢ Err (RestartFault.Walk (walk.File (file.Changed p)))) }
    ensures never_writes { result ≢ Err (RestartFault.Replay replay.WriteFault) }
{
    let mut seen = WithoutFile { tree, file: mark };
    begin(alloc, &mut seen, root, custom)
}

/// What a replay that can be started again begins from, where nothing but a file may stand at its own mark: that file
/// isn't seen. It reads the log twice, and changes nothing.
///
/// Answers the first that refuses of: what `check` of `replay_start` refuses (`Replay`); what is wrong with the least path
/// at or below `base`, `global`, `pg_multixact` and `pg_xact` (`Walk`, of `list_areas`); and the least block of a main fork of
/// which the log changes the page that stands there first (`NotRestartable`). `ReadFault`, `Changed` where the tree
/// contradicted itself, and `OutOfMemory` may come at any point.
pub fn start_again<F: Tree, M: Manager>(
    alloc: Global,
    tree: &mut F,
    root: &Path,
    custom: Option<&M>,
) -> Result<Beginning, RestartFault>
    requires room { length root.now.parts ≤ 61 }
    // the answer is what a replay begins from, or that of the first point that refuses; or a fault of the
    // device, or want of memory
    ensures exact { IsTrue F.tells → Begins (handed_in M.Manager custom.entry)
        (without_own (F.contents tree.old) root.now) root.now result }
    ensures knows { IsTrue F.tells → IfOk result
        (λ begun. Knows begun.checked.cursor (without_own (F.contents tree.new) root.now)) }
    ensures control { IfOk result (λ begun. IsControl begun.checked.control) }
    ensures folder { IfOk result (λ begun. begun.checked.cursor.log.folder ≡ wal_folder root.now) }
    ensures listed { IsTrue F.tells → IfOk result (λ begun. IsListOf root.now begun.listed) }
    ensures reads { Reads F.Tree tree.old tree.new }
    ensures replay_fault { IsErrOf result (RestartFault.Replay (replay.Cluster cluster.ReadFault)) →
        Rose (F.failed_reads tree.old) (F.failed_reads tree.new) }
    ensures walk_fault { IsErrOf result (RestartFault.Walk (walk.File file.ReadFault)) →
        Rose (F.failed_reads tree.old) (F.failed_reads tree.new) }
    // a walk only reads
    ensures walk_reads { result ≢ Err (RestartFault.Walk (walk.File file.WriteFault)) }
    ensures changed { IsTrue F.tells → (p : PathValue) →
        (result ≢ Err (RestartFault.Replay (replay.Cluster (cluster.Changed p))))
        × (result ≢ Err (RestartFault.Walk (walk.File (file.Changed p)))) }
    ensures never_writes { result ≢ Err (RestartFault.Replay replay.WriteFault) }
{
    let mark = path_in(alloc, root, "pg_walreplay.unfinished")?;
    begin_without(alloc, tree, &mark, root, custom)
}
