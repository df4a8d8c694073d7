// The public call that compares.
ghost use Rattle.std.specs.Prelude.{◌≡◌, ◌≢◌, ◌≤◌, length, IfOk, IfErr, IsErrOf, IsTrue, Err};
ghost use Rattle.cluster_tree.specs.Causes.{Meets, Passes, Rose};
ghost use Rattle.cluster_tree.specs.Frame.{Reads};
ghost use Rattle.cluster_tree.specs.PathValue.{PathValue};
ghost use Rattle.cluster_tree.specs.declared.file_fault.FileFault.TheVariants as file;
ghost use Rattle.file_walk.specs.Walk.{HasParts};
ghost use Rattle.cluster_compare.specs.Compared.{compared, folder_refusal, from_walks, verdict};
ghost use Rattle.cluster_compare.specs.Faults.{IsChanged, IsFree, IsReadFault, IsRowOf};
ghost use Rattle.cluster_compare.specs.Looks.{AreToldPairs, IsLookFault};

use crate::compared::Compared;
use crate::fault::CompareFault;
use crate::pair_compared::difference;
use crate::places::Clusters;
use cluster_tree::{FileFault, Kind, Path, Tree, TreeFault};
use clusters::{check_marks, control_at};
use file_walk::{Pair, pair_up, walk};
use std::alloc::Global;

// Refuses a root that is no folder.
fn check_folder<F: Tree>(alloc: Global, tree: &mut F, root: &Path) -> Result<(), CompareFault>
    ensures answer { IsTrue F.tells →
        Passes IsFree (folder_refusal (F.contents tree.old) root.now) result }
    ensures reads { Reads F.Tree tree.old tree.new }
    ensures read_fault { IfErr result (λ e. IsReadFault e →
        Rose (F.failed_reads tree.old) (F.failed_reads tree.new)) }
    ensures changed { IfErr result (λ e. IsChanged e → ⊥) }
    ensures row { (first : PathValue) → IfErr result (IsRowOf first root.now) }
{
    match tree.kind(root) {
        Ok(Kind::Folder) => Ok(()),
        Err(TreeFault::Failed) => Err(CompareFault::File(FileFault::ReadFault)),
        Ok(Kind::Absent | Kind::File) | Err(_) => {
            Err(CompareFault::File(FileFault::NotFolder(root.copy(alloc)?)))
        }
    }
}

// The first of these pairs at which the clusters differ.
fn first_difference<F: Tree>(
    alloc: Global,
    tree: &mut F,
    clusters: &Clusters<'_>,
    pairs: &[Pair],
) -> Result<Compared, FileFault>
    requires first_depth { length clusters.now.first.now.parts ≤ 61 }
    requires second_depth { length clusters.now.second.now.parts ≤ 61 }
    requires told { IsTrue F.tells → AreToldPairs (F.contents tree.old) clusters.now.first.now
        clusters.now.second.now pairs.now }
    ensures value { IsTrue F.tells → IfOk result (λ answer. answer
        ≡ verdict (F.contents tree.old) clusters.now.per_file clusters.now.first.now
        clusters.now.second.now pairs.now) }
    ensures reads { Reads F.Tree tree.old tree.new }
    ensures read_fault { IsErrOf result file.ReadFault →
        Rose (F.failed_reads tree.old) (F.failed_reads tree.new) }
    ensures changed { IsTrue F.tells → (p : PathValue) → result ≢ Err (file.Changed p) }
    ensures row { IfErr result IsLookFault }
{
    for pair in pairs {
        if let Some(block) = difference(alloc, tree, clusters, pair)? {
            return Ok(Compared::Differs(pair.path.copy(alloc)?, block));
        }
    }
    Ok(Compared::Same)
}

// Compares what walks below two folders find.
fn compare_walked<F: Tree>(
    alloc: Global,
    tree: &mut F,
    clusters: &Clusters<'_>,
) -> Result<Compared, CompareFault>
    requires first_depth { length clusters.now.first.now.parts ≤ 61 }
    requires second_depth { length clusters.now.second.now.parts ≤ 61 }
    ensures exact { IsTrue F.tells → Meets IsFree (from_walks (F.contents tree.old)
        clusters.now.per_file clusters.now.first.now clusters.now.second.now) result }
    ensures reads { Reads F.Tree tree.old tree.new }
    ensures read_fault { IfErr result (λ e. IsReadFault e →
        Rose (F.failed_reads tree.old) (F.failed_reads tree.new)) }
    ensures changed { IsTrue F.tells → IfErr result (λ e. IsChanged e → ⊥) }
    ensures row { IfErr result (IsRowOf clusters.now.first.now clusters.now.second.now) }
    ensures parts { IsTrue F.tells → IfOk result (λ _.
        HasParts (F.contents tree.old) clusters.now.first.now
        × HasParts (F.contents tree.old) clusters.now.second.now) }
{
    let found = walk(alloc, tree, clusters.first)?;
    let there = walk(alloc, tree, clusters.second)?;
    let pairs = pair_up(alloc, found, there)?;
    let compared = first_difference(alloc, tree, clusters, &pairs)?;
    Ok(compared)
}

/// Compares the clusters below two roots path by path: equal kinds and bytes, and of the files of
/// main forks equal sizes and equal blocks under the mask. Left out are files whose name ends in
/// PG_VERSION, and the files of main forks of relations whose init fork's first file stands in
/// either cluster, where neither has a folder or a link there. It changes nothing.
///
/// Answers `Same`; or `Differs` with the least path in the order of texts at which they differ, and
/// for a main fork's files of one size the number in its fork of the first block that differs, by the
/// first cluster's number of blocks of a segment, at most 2^32 - 1.
///
/// Refuses with the first fault of these: `Cluster` with `Unfinished` for a mark at the first root,
/// and then at the second; `Cluster` with what `control_at` refuses of the first root; `File` with
/// `NotFolder` and the second root where that is no folder; `Walk` with what a walk below the first
/// root refuses, and then below the second. Each of the three else holds `ReadFault` where a read
/// of the device failed, `Changed` where the tree contradicted itself about a path, and
/// `OutOfMemory`.
pub fn compare_clusters<F: Tree>(
    alloc: Global,
    tree: &mut F,
    first: &Path,
    second: &Path,
) -> Result<Compared, CompareFault>
    requires first_depth { length first.now.parts ≤ 61 }
    requires second_depth { length second.now.parts ≤ 61 }
    ensures exact { IsTrue F.tells →
        Meets IsFree (compared (F.contents tree.old) first.now second.now) result }
    ensures reads { Reads F.Tree tree.old tree.new }
    ensures read_fault { IfErr result (λ e. IsReadFault e →
        Rose (F.failed_reads tree.old) (F.failed_reads tree.new)) }
    ensures changed { IsTrue F.tells → IfErr result (λ e. IsChanged e → ⊥) }
    ensures row { IfErr result (IsRowOf first.now second.now) }
    ensures parts { IsTrue F.tells → IfOk result (λ _.
        HasParts (F.contents tree.old) first.now × HasParts (F.contents tree.old) second.now) }
{
    check_marks(alloc, tree, first)?;
    check_marks(alloc, tree, second)?;
    let control = control_at(alloc, tree, first)?;
    check_folder(alloc, tree, second)?;
    let clusters = Clusters {
        first,
        second,
        per_file: control.relseg,
    };
    compare_walked(alloc, tree, &clusters)
}
