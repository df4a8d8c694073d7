// Old multixacts that go.
ghost use Rattle.std.specs.Prelude.{◌≡◌, ◌≢◌, IsTrue, Err, IsErrOf};
ghost use Rattle.cluster_tree.specs.PathValue.{PathValue};
ghost use Rattle.cluster_tree.specs.Causes.{Rose};
ghost use Rattle.cluster_tree.specs.Frame.{Came};
ghost use Rattle.file_edits.specs.Answers.{Does};
ghost use Rattle.file_edits.specs.Own.{OnOwn};
ghost use Rattle.storage_replay.specs.Files.{AreFit};
ghost use Rattle.file_effects.specs.Done.{multis_cut, page_before};
ghost use Rattle.file_effects.specs.Own.{is_replayed};
ghost use Rattle.file_effects.specs.Touched.{SparesBlocks, no_block_taken};

use cluster_tree::{FileFault, Tree};
use record_layouts::MultiXactTruncate;
use slru_replay::{Area, cut_before};
use std::alloc::Global;
use storage_replay::Files;

// Of how many multixacts a page has the offsets of their first members.
const PAGE_MULTIS: u32 = 2048;

// The page of offsets of the multixact before another.
fn page_before(multi: u32) -> u32
    ensures { result ≡ page_before multi }
{
    multi.wrapping_sub(1) / PAGE_MULTIS
}

/// Removes the files of old multixacts: those of offsets before the page of the last that goes, and
/// those of the members of those that go.
pub(crate) fn cut_multis<F: Tree>(
    alloc: Global,
    tree: &mut F,
    at: &Files,
    cut: MultiXactTruncate,
) -> Result<(), FileFault>
    requires fit { AreFit at.now }
    ensures exact { IsTrue F.tells → Does (multis_cut at.now.root cut (F.contents tree.old))
        (F.contents tree.new) result }
    ensures frame { Came F.Tree tree.old tree.new }
    ensures own { IsTrue F.tells → OnOwn F.calls (is_replayed at.now.root) tree.old tree.new }
    ensures spares { IsTrue F.tells → SparesBlocks F.Tree at.now.root at.now.per_file
        no_block_taken tree.old tree.new }
    ensures read_fault { IsErrOf result FileFault.ReadFault →
        Rose (F.failed_reads tree.old) (F.failed_reads tree.new) }
    ensures write_fault { IsErrOf result FileFault.WriteFault →
        Rose (F.failed_changes tree.old) (F.failed_changes tree.new) }
    ensures changed { IsTrue F.tells → (p : PathValue) → result ≢ Err (FileFault.Changed p) }
{
    let page = page_before(cut.end_multi);
    cut_before(alloc, tree, &at.root, Area::Offsets, 0, page)?;
    cut_before(
        alloc,
        tree,
        &at.root,
        Area::Members,
        cut.first_offset,
        cut.end_offset,
    )
}
