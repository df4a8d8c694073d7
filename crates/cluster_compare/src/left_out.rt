// What a comparison leaves out.
ghost use Rattle.std.specs.Prelude.{◌≡◌, ◌≢◌, ◌≤◌, ◌||◌, length, IfErr, IfOk, IsErrOf, IsTrue, Err, Some};
ghost use Rattle.cluster_tree.specs.Causes.{Rose};
ghost use Rattle.cluster_tree.specs.Contents.{Entry, LinkEntry, entry_at};
ghost use Rattle.cluster_tree.specs.Frame.{Reads};
ghost use Rattle.cluster_tree.specs.PathValue.{PathValue, below};
ghost use Rattle.cluster_tree.specs.declared.file_fault.FileFault.TheVariants as file;
ghost use Rattle.std.specs.Prelude.{Option};
ghost use Rattle.file_walk.specs.Actions.{is_version};
ghost use Rattle.file_walk.specs.Relations.{relation_of};
ghost use Rattle.file_walk.specs.Walk.{kind_there};
ghost use Rattle.cluster_compare.specs.Looks.{IsLookFault, IsToldPair};
ghost use Rattle.cluster_compare.specs.Same.{has_init, is_left_out, is_plain, is_unlogged, unlogged_in};

use crate::places::Clusters;
use block_refs::{Fork, RelName};
use cluster_tree::{FileFault, Kind, Path, Tree, TreeFault};
use file_walk::{EntryKind, Pair};
use relation_files::relation_file;
use std::alloc::Global;

// Whether the path's text ends in PG_VERSION.
fn is_version(path: &Path) -> bool
    ensures { result ≡ is_version path.now }
{
    let len = path.len();
    if len == 0 {
        return false;
    }
    match path.part(len - 1) {
        Some(last) => last.as_bytes().ends_with(b"PG_VERSION"),
        None => false,
    }
}

// Whether no folder stands there, by what a walk told.
fn is_plain(kind: Option<EntryKind>) -> bool
    ensures { (o : Option Entry) → kind ≡ kind_there o → o ≢ Some LinkEntry → result ≡ is_plain o }
{
    !matches!(kind, Some(EntryKind::Folder))
}

// Whether the first file of a relation's init fork stands below a root.
fn has_init<F: Tree>(
    alloc: Global,
    tree: &mut F,
    root: &Path,
    rel: RelName,
) -> Result<bool, FileFault>
    requires depth { length root.now.parts ≤ 61 }
    ensures value { IsTrue F.tells →
        IfOk result (λ there. there ≡ has_init (F.contents tree.old) root.now rel) }
    ensures reads { Reads F.Tree tree.old tree.new }
    ensures read_fault { IsErrOf result file.ReadFault →
        Rose (F.failed_reads tree.old) (F.failed_reads tree.new) }
    ensures changed { (p : PathValue) → result ≢ Err (file.Changed p) }
    ensures row { IfErr result IsLookFault }
{
    let path = relation_file(alloc, root, rel, Fork::Init, 0)?;
    match tree.kind(&path) {
        Ok(Kind::File) => Ok(true),
        Err(TreeFault::Failed) => Err(FileFault::ReadFault),
        Ok(Kind::Absent | Kind::Folder) | Err(_) => Ok(false),
    }
}

// Whether a relation isn't logged in one of both clusters.
fn is_unlogged<F: Tree>(
    alloc: Global,
    tree: &mut F,
    clusters: &Clusters<'_>,
    relation: Option<(RelName, u32)>,
) -> Result<bool, FileFault>
    requires first_depth { length clusters.now.first.now.parts ≤ 61 }
    requires second_depth { length clusters.now.second.now.parts ≤ 61 }
    ensures value { IsTrue F.tells → IfOk result (λ is. is ≡ is_unlogged
        (unlogged_in (F.contents tree.old) clusters.now.first.now (F.contents tree.old)
        clusters.now.second.now) relation) }
    ensures reads { Reads F.Tree tree.old tree.new }
    ensures read_fault { IsErrOf result file.ReadFault →
        Rose (F.failed_reads tree.old) (F.failed_reads tree.new) }
    ensures changed { (p : PathValue) → result ≢ Err (file.Changed p) }
    ensures row { IfErr result IsLookFault }
{
    let Some((rel, _)) = relation else {
        return Ok(false);
    };
    if has_init(alloc, tree, clusters.first, rel)? {
        return Ok(true);
    }
    has_init(alloc, tree, clusters.second, rel)
}

/// Whether a comparison leaves out what stands at a path of both clusters, a main fork's file by
/// its path or not. Answers `ReadFault` where a read failed, and `OutOfMemory`.
pub(crate) fn is_left_out<F: Tree>(
    alloc: Global,
    tree: &mut F,
    clusters: &Clusters<'_>,
    pair: &Pair,
    relation: Option<(RelName, u32)>,
) -> Result<bool, FileFault>
    requires first_depth { length clusters.now.first.now.parts ≤ 61 }
    requires second_depth { length clusters.now.second.now.parts ≤ 61 }
    requires told { IsTrue F.tells → IsToldPair (F.contents tree.old) clusters.now.first.now
        clusters.now.second.now pair.now }
    requires relation { relation ≡ relation_of pair.now.path }
    ensures value { IsTrue F.tells → IfOk result (λ is. is ≡ is_left_out
        (unlogged_in (F.contents tree.old) clusters.now.first.now (F.contents tree.old)
        clusters.now.second.now) pair.now.path
        (entry_at (F.contents tree.old) (below clusters.now.first.now pair.now.path.parts))
        (entry_at (F.contents tree.old) (below clusters.now.second.now pair.now.path.parts))) }
    ensures reads { Reads F.Tree tree.old tree.new }
    ensures read_fault { IsErrOf result file.ReadFault →
        Rose (F.failed_reads tree.old) (F.failed_reads tree.new) }
    ensures changed { (p : PathValue) → result ≢ Err (file.Changed p) }
    ensures row { IfErr result IsLookFault }
{
    if !is_plain(pair.target) || !is_plain(pair.source) {
        return Ok(false);
    }
    if is_version(&pair.path) {
        return Ok(true);
    }
    is_unlogged(alloc, tree, clusters, relation)
}
