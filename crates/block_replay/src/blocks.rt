//! The blocks of a record.

ghost use Rattle.std.specs.Prelude.{◌≡◌, ◌≢◌, IsTrue, true, Err, IsErrOf};
ghost use Rattle.block_refs.specs.Parts.{ArePartsOf};
ghost use Rattle.cluster_tree.specs.Causes.{MeetsInto, Rose};
ghost use Rattle.cluster_tree.specs.Frame.{Came};
ghost use Rattle.cluster_tree.specs.PathValue.{PathValue};
ghost use Rattle.file_edits.specs.Own.{OnOwn};
ghost use Rattle.storage_replay.specs.Files.{AreFit};
ghost use Rattle.block_replay.specs.Faults.{IsFreeFault};
ghost use Rattle.file_effects.specs.Own.{is_replayed};
ghost use Rattle.file_effects.specs.Touched.{SparesBlocks};
ghost use Rattle.block_replay.specs.Touched.{writes_at, writes_block, writes_placed};
ghost use Rattle.std.specs.List.{slice_get};
ghost use Rattle.record_effects.specs.Acts.{act_on};
ghost use Rattle.replay_profile.specs.Names.{are_known};
ghost use Rattle.block_replay.specs.Blocks.{blocks_after, by_act, placed_after};
ghost use Rattle.rmgr_hooks.specs.Custom.{handed_in};

use crate::acts::{put_image, put_made};
use crate::changes::{change, set_map_bits};
use crate::faults::RecordFault;
use crate::redo::Redo;
use crate::skipped::Skipped;
use block_refs::{BlockRef, Parts};
use cluster_tree::{FileFault, Tree};
use page_layout::Page;
use record_effects::{Act, act_on};
use rmgr_hooks::Manager;
use std::alloc::Global;
use storage_replay::Files;
use wal_records::Record;

/// Does what a record does to the block of a reference.
fn replay_block<F: Tree, M: Manager>(
    alloc: Global,
    tree: &mut F,
    at: &Files,
    skipped: &mut Skipped,
    redo: &Redo<M>,
    block: &BlockRef,
    page: &mut Page,
) -> Result<(), RecordFault>
    requires fit { AreFit at.now }
    requires parts { ArePartsOf redo.now.rec.now redo.now.parts.now }
    requires block { block.now.name.block ≢ 0xFFFFFFFF }
    ensures exact { IsTrue F.tells → MeetsInto IsFreeFault
        (by_act (handed_in M.Manager redo.now.custom) at.now.root at.now.per_file
        redo.now.rec.now redo.now.parts.now
        block.now
        (record { files = F.contents tree.old; skipped = skipped.old })
        (act_on (handed_in M.Manager redo.now.custom) redo.now.rec.now redo.now.parts.now
        block.now))
        (record { files = F.contents tree.new; skipped = skipped.new }) result }
    ensures frame { Came F.Tree tree.old tree.new }
    ensures own { IsTrue F.tells → OnOwn F.calls (is_replayed at.now.root) tree.old tree.new }
    ensures spares { IsTrue F.tells → SparesBlocks F.Tree at.now.root at.now.per_file
        (writes_at (handed_in M.Manager redo.now.custom) redo.now.rec.now
        redo.now.parts.now block.now) tree.old tree.new }
    ensures read_fault { IsErrOf result (RecordFault.File FileFault.ReadFault) →
        Rose (F.failed_reads tree.old) (F.failed_reads tree.new) }
    ensures write_fault { IsErrOf result (RecordFault.File FileFault.WriteFault) →
        Rose (F.failed_changes tree.old) (F.failed_changes tree.new) }
    ensures changed { IsTrue F.tells → (p : PathValue) →
        result ≢ Err (RecordFault.File (FileFault.Changed p)) }
{
    match act_on(redo.rec, redo.parts, block, redo.custom) {
        Act::Nothing | Act::Gone => Ok(()),
        Act::Image => put_image(alloc, tree, at, redo.rec, redo.parts, block, page),
        Act::Make => put_made(alloc, tree, at, redo, block, page),
        Act::Change => change(alloc, tree, at, skipped, redo, block, page),
        Act::MapPage => set_map_bits(alloc, tree, at, redo.rec, redo.parts, block.name, page),
    }
}

/// Does what a record does to the block of the reference at a place, if there is one.
fn replay_at<F: Tree, M: Manager>(
    alloc: Global,
    tree: &mut F,
    at: &Files,
    skipped: &mut Skipped,
    redo: &Redo<M>,
    index: usize,
    page: &mut Page,
) -> Result<(), RecordFault>
    requires fit { AreFit at.now }
    requires parts { ArePartsOf redo.now.rec.now redo.now.parts.now }
    requires known { are_known redo.now.parts.now.blocks ≡ true }
    ensures exact { IsTrue F.tells → MeetsInto IsFreeFault
        (placed_after (handed_in M.Manager redo.now.custom) at.now.root at.now.per_file
        redo.now.rec.now redo.now.parts.now
        (slice_get redo.now.parts.now.blocks index)
        (record { files = F.contents tree.old; skipped = skipped.old }))
        (record { files = F.contents tree.new; skipped = skipped.new }) result }
    ensures frame { Came F.Tree tree.old tree.new }
    ensures own { IsTrue F.tells → OnOwn F.calls (is_replayed at.now.root) tree.old tree.new }
    ensures spares { IsTrue F.tells → SparesBlocks F.Tree at.now.root at.now.per_file
        (writes_placed (handed_in M.Manager redo.now.custom) redo.now.rec.now
        redo.now.parts.now
        (slice_get redo.now.parts.now.blocks index)) tree.old tree.new }
    ensures read_fault { IsErrOf result (RecordFault.File FileFault.ReadFault) →
        Rose (F.failed_reads tree.old) (F.failed_reads tree.new) }
    ensures write_fault { IsErrOf result (RecordFault.File FileFault.WriteFault) →
        Rose (F.failed_changes tree.old) (F.failed_changes tree.new) }
    ensures changed { IsTrue F.tells → (p : PathValue) →
        result ≢ Err (RecordFault.File (FileFault.Changed p)) }
{
    match redo.parts.get(index) {
        Some(block) => replay_block(alloc, tree, at, skipped, redo, &block, page),
        None => Ok(()),
    }
}

/// Does what a record does to the blocks that it references, in the order of their ids: an image is put
/// in place whatever stands there, a page is made anew, or changed where its LSN is below the record's
/// end. A change of a block without a page is skipped, and the block's name added to `skipped`; a page
/// of the visibility map that isn't there is made. The parts have to be those of the record, and each
/// reference names a known block, none twice. `page` is room for one page, and open afterwards.
///
/// Answers `RedoFailed` with the record's start, the block and why its page can't be redone, and `File`
/// with a fault of the files, of which that of reading a page comes before its redo. After a fault
/// `skipped` is open.
pub fn replay_blocks<F: Tree, M: Manager>(
    alloc: Global,
    tree: &mut F,
    at: &Files,
    skipped: &mut Skipped,
    rec: &Record,
    parts: &Parts,
    page: &mut Page,
    custom: Option<&M>,
) -> Result<(), RecordFault>
    requires fit { AreFit at.now }
    requires parts { ArePartsOf rec.now parts.now }
    requires known { are_known parts.now.blocks ≡ true }
    ensures exact { IsTrue F.tells → MeetsInto IsFreeFault
        (blocks_after (handed_in M.Manager custom.entry) at.now.root at.now.per_file rec.now
        parts.now
        (record { files = F.contents tree.old; skipped = skipped.old }))
        (record { files = F.contents tree.new; skipped = skipped.new }) result }
    ensures frame { Came F.Tree tree.old tree.new }
    ensures own { IsTrue F.tells → OnOwn F.calls (is_replayed at.now.root) tree.old tree.new }
    ensures spares { IsTrue F.tells → SparesBlocks F.Tree at.now.root at.now.per_file
        (writes_block (handed_in M.Manager custom.entry) rec.now parts.now) tree.old tree.new }
    ensures read_fault { IsErrOf result (RecordFault.File FileFault.ReadFault) →
        Rose (F.failed_reads tree.old) (F.failed_reads tree.new) }
    ensures write_fault { IsErrOf result (RecordFault.File FileFault.WriteFault) →
        Rose (F.failed_changes tree.old) (F.failed_changes tree.new) }
    ensures changed { IsTrue F.tells → (p : PathValue) →
        result ≢ Err (RecordFault.File (FileFault.Changed p)) }
{
    let redo = Redo { rec, parts, custom };
    for index in 0..parts.count() {
        replay_at(alloc, tree, at, skipped, &redo, index, page)?;
    }
    Ok(())
}
