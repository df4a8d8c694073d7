// What stands at one path in two clusters, compared.
ghost use Rattle.std.specs.Prelude.{◌≡◌, ◌≢◌, ◌≤◌, length, IfErr, IfOk, IsErrOf, IsTrue, Err};
ghost use Rattle.cluster_tree.specs.Causes.{Rose};
ghost use Rattle.cluster_tree.specs.Contents.{entry_at};
ghost use Rattle.cluster_tree.specs.Frame.{Reads};
ghost use Rattle.cluster_tree.specs.PathValue.{PathValue, below};
ghost use Rattle.cluster_tree.specs.Tree.{bytes_at};
ghost use Rattle.cluster_tree.specs.declared.file_fault.FileFault.TheVariants as file;
ghost use Rattle.file_walk.specs.Relations.{relation_of};
ghost use Rattle.cluster_compare.specs.Looks.{AreThere, IsLookFault, IsToldPair};
ghost use Rattle.cluster_compare.specs.Same.{differ_at, entries_differ, files_differ, unlogged_in};

use crate::blocks::{Segment, first_block};
use crate::bytes::same_bytes;
use crate::left_out::is_left_out;
use crate::places::{Clusters, Files, file_at};
use block_refs::RelName;
use cluster_tree::{FileFault, Tree};
use file_walk::{EntryKind, Pair, is_relation_file};
use std::alloc::Global;

/// How two entries differ: in the block of this number of their fork, or else as a whole.
pub(crate) type Difference = Option<u32>;

// How files that are main forks' ones by their path, or aren't, differ, if they do.
fn files_differ<F: Tree>(
    alloc: Global,
    tree: &mut F,
    files: &Files,
    per_file: u32,
    relation: Option<(RelName, u32)>,
) -> Result<Option<Difference>, FileFault>
    requires there { IsTrue F.tells → AreThere (F.contents tree.old) files.now }
    ensures value { IsTrue F.tells → IfOk result (λ how. how ≡ files_differ per_file relation
        (bytes_at (F.contents tree.old) files.now.first.path)
        (bytes_at (F.contents tree.old) files.now.second.path)) }
    ensures reads { Reads F.Tree tree.old tree.new }
    ensures read_fault { IsErrOf result file.ReadFault →
        Rose (F.failed_reads tree.old) (F.failed_reads tree.new) }
    ensures changed { IsTrue F.tells → (p : PathValue) → result ≢ Err (file.Changed p) }
    ensures row { IfErr result IsLookFault }
{
    let Some((_, number)) = relation else {
        let same = same_bytes(alloc, tree, files)?;
        return Ok(if same { None } else { Some(None) });
    };
    if files.first.size != files.second.size {
        return Ok(Some(None));
    }
    match first_block(alloc, tree, files, Segment { number, per_file })? {
        Some(block) => Ok(Some(Some(block))),
        None => Ok(None),
    }
}

// How what stands at a path in both clusters differs, if it does, where nothing there is left out.
fn entries_differ<F: Tree>(
    alloc: Global,
    tree: &mut F,
    clusters: &Clusters<'_>,
    pair: &Pair,
    relation: Option<(RelName, u32)>,
) -> Result<Option<Difference>, FileFault>
    requires told { IsTrue F.tells → IsToldPair (F.contents tree.old) clusters.now.first.now
        clusters.now.second.now pair.now }
    ensures value { IsTrue F.tells → IfOk result (λ how. how
        ≡ entries_differ clusters.now.per_file relation
        (entry_at (F.contents tree.old) (below clusters.now.first.now pair.now.path.parts))
        (entry_at (F.contents tree.old) (below clusters.now.second.now pair.now.path.parts))) }
    ensures reads { Reads F.Tree tree.old tree.new }
    ensures read_fault { IsErrOf result file.ReadFault →
        Rose (F.failed_reads tree.old) (F.failed_reads tree.new) }
    ensures changed { IsTrue F.tells → (p : PathValue) → result ≢ Err (file.Changed p) }
    ensures row { IfErr result IsLookFault }
{
    match (pair.target, pair.source) {
        (None, None) | (Some(EntryKind::Folder), Some(EntryKind::Folder)) => Ok(None),
        (Some(EntryKind::File(size)), Some(EntryKind::File(other))) => {
            let files = Files {
                first: file_at(alloc, clusters.first, &pair.path, size)?,
                second: file_at(alloc, clusters.second, &pair.path, other)?,
            };
            files_differ(alloc, tree, &files, clusters.per_file, relation)
        }
        (None, Some(_)) | (Some(_), None) => Ok(Some(None)),
        (Some(EntryKind::File(_)), Some(EntryKind::Folder))
        | (Some(EntryKind::Folder), Some(EntryKind::File(_))) => Ok(Some(None)),
    }
}

/// How what stands at a path of both clusters differs, if it does. Answers `ReadFault` where a read
/// failed, `Changed` where the tree contradicted what the walks told, and `OutOfMemory`.
pub(crate) fn difference<F: Tree>(
    alloc: Global,
    tree: &mut F,
    clusters: &Clusters<'_>,
    pair: &Pair,
) -> Result<Option<Difference>, FileFault>
    requires first_depth { length clusters.now.first.now.parts ≤ 61 }
    requires second_depth { length clusters.now.second.now.parts ≤ 61 }
    requires told { IsTrue F.tells → IsToldPair (F.contents tree.old) clusters.now.first.now
        clusters.now.second.now pair.now }
    ensures value { IsTrue F.tells → IfOk result (λ how. how ≡ differ_at
        (unlogged_in (F.contents tree.old) clusters.now.first.now (F.contents tree.old)
        clusters.now.second.now) clusters.now.per_file pair.now.path
        (entry_at (F.contents tree.old) (below clusters.now.first.now pair.now.path.parts))
        (entry_at (F.contents tree.old) (below clusters.now.second.now pair.now.path.parts))) }
    ensures reads { Reads F.Tree tree.old tree.new }
    ensures read_fault { IsErrOf result file.ReadFault →
        Rose (F.failed_reads tree.old) (F.failed_reads tree.new) }
    ensures changed { IsTrue F.tells → (p : PathValue) → result ≢ Err (file.Changed p) }
    ensures row { IfErr result IsLookFault }
{
    let relation = is_relation_file(&pair.path);
    if is_left_out(alloc, tree, clusters, pair, relation)? {
        return Ok(None);
    }
    entries_differ(alloc, tree, clusters, pair, relation)
}
