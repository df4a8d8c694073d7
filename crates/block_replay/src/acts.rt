//! Pages that a record puts in place, whatever stood there, or where they are older.

ghost use Rattle.std.specs.Prelude.{◌≢◌, IsTrue, Err, IsErrOf};
ghost use Rattle.block_effects.specs.Effects.{zeros};
ghost use Rattle.block_refs.specs.Parts.{ArePartsOf};
ghost use Rattle.cluster_tree.specs.Causes.{MeetsInto, Rose};
ghost use Rattle.cluster_tree.specs.Frame.{Came};
ghost use Rattle.cluster_tree.specs.PathValue.{PathValue};
ghost use Rattle.file_edits.specs.Own.{OnOwn};
ghost use Rattle.storage_replay.specs.Files.{AreFit};
ghost use Rattle.block_replay.specs.Faults.{IsFreeFault};
ghost use Rattle.file_effects.specs.Own.{is_replayed};
ghost use Rattle.file_effects.specs.Touched.{SparesBlocks};
ghost use Rattle.storage_laws.specs.Names.{same_block};
ghost use Rattle.block_replay.specs.Blocks.{redone};
ghost use Rattle.block_replay.specs.Pages.{image_at, image_put, older_put, redone_put};
ghost use Rattle.rmgr_hooks.specs.Custom.{handed_in};

use crate::faults::RecordFault;
use crate::pages::{clear, make_image, put_page, redo_page, stamp_image};
use crate::redo::Redo;
use block_refs::{BlockRef, Parts};
use cluster_tree::{FileFault, Tree};
use page_layout::Page;
use rmgr_hooks::Manager;
use std::alloc::Global;
use storage_replay::Files;
use wal_records::Record;

/// Puts the image of a reference in place.
pub(crate) fn put_image<F: Tree>(
    alloc: Global,
    tree: &mut F,
    at: &Files,
    rec: &Record,
    parts: &Parts,
    block: &BlockRef,
    page: &mut Page,
) -> Result<(), RecordFault>
    requires fit { AreFit at.now }
    requires parts { ArePartsOf rec.now parts.now }
    requires block { block.now.name.block ≢ 0xFFFFFFFF }
    ensures exact { IsTrue F.tells → MeetsInto IsFreeFault
        (image_put at.now.root at.now.per_file rec.now block.now.name
        (image_at rec.now parts.now block.now.id) (F.contents tree.old))
        (F.contents tree.new) result }
    ensures frame { Came F.Tree tree.old tree.new }
    ensures own { IsTrue F.tells → OnOwn F.calls (is_replayed at.now.root) tree.old tree.new }
    ensures spares { IsTrue F.tells → SparesBlocks F.Tree at.now.root at.now.per_file
        (same_block block.now.name) tree.old tree.new }
    ensures read_fault { IsErrOf result (RecordFault.File FileFault.ReadFault) →
        Rose (F.failed_reads tree.old) (F.failed_reads tree.new) }
    ensures write_fault { IsErrOf result (RecordFault.File FileFault.WriteFault) →
        Rose (F.failed_changes tree.old) (F.failed_changes tree.new) }
    ensures changed { IsTrue F.tells → (p : PathValue) →
        result ≢ Err (RecordFault.File (FileFault.Changed p)) }
{
    if !make_image(rec, parts, block.id, page) {
        return Ok(());
    }
    stamp_image(rec, page);
    put_page(alloc, tree, at, block.name, page)
}

/// Redoes a record on the page of a reference, and puts it in place.
fn put_redone<F: Tree, M: Manager>(
    alloc: Global,
    tree: &mut F,
    at: &Files,
    redo: &Redo<M>,
    block: &BlockRef,
    page: &mut Page,
) -> Result<(), RecordFault>
    requires fit { AreFit at.now }
    requires parts { ArePartsOf redo.now.rec.now redo.now.parts.now }
    requires block { block.now.name.block ≢ 0xFFFFFFFF }
    ensures exact { IsTrue F.tells → MeetsInto IsFreeFault
        (redone_put at.now.root at.now.per_file redo.now.rec.now block.now.name
        (redone (handed_in M.Manager redo.now.custom) redo.now.rec.now redo.now.parts.now
        block.now page.old)
        (F.contents tree.old))
        (F.contents tree.new) result }
    ensures frame { Came F.Tree tree.old tree.new }
    ensures own { IsTrue F.tells → OnOwn F.calls (is_replayed at.now.root) tree.old tree.new }
    ensures spares { IsTrue F.tells → SparesBlocks F.Tree at.now.root at.now.per_file
        (same_block block.now.name) tree.old tree.new }
    ensures read_fault { IsErrOf result (RecordFault.File FileFault.ReadFault) →
        Rose (F.failed_reads tree.old) (F.failed_reads tree.new) }
    ensures write_fault { IsErrOf result (RecordFault.File FileFault.WriteFault) →
        Rose (F.failed_changes tree.old) (F.failed_changes tree.new) }
    ensures changed { IsTrue F.tells → (p : PathValue) →
        result ≢ Err (RecordFault.File (FileFault.Changed p)) }
{
    redo_page(redo, block, page)?;
    put_page(alloc, tree, at, block.name, page)
}

/// Makes the page of a reference anew, from zeros.
pub(crate) fn put_made<F: Tree, M: Manager>(
    alloc: Global,
    tree: &mut F,
    at: &Files,
    redo: &Redo<M>,
    block: &BlockRef,
    page: &mut Page,
) -> Result<(), RecordFault>
    requires fit { AreFit at.now }
    requires parts { ArePartsOf redo.now.rec.now redo.now.parts.now }
    requires block { block.now.name.block ≢ 0xFFFFFFFF }
    ensures exact { IsTrue F.tells → MeetsInto IsFreeFault
        (redone_put at.now.root at.now.per_file redo.now.rec.now block.now.name
        (redone (handed_in M.Manager redo.now.custom) redo.now.rec.now redo.now.parts.now
        block.now zeros)
        (F.contents tree.old))
        (F.contents tree.new) result }
    ensures frame { Came F.Tree tree.old tree.new }
    ensures own { IsTrue F.tells → OnOwn F.calls (is_replayed at.now.root) tree.old tree.new }
    ensures spares { IsTrue F.tells → SparesBlocks F.Tree at.now.root at.now.per_file
        (same_block block.now.name) tree.old tree.new }
    ensures read_fault { IsErrOf result (RecordFault.File FileFault.ReadFault) →
        Rose (F.failed_reads tree.old) (F.failed_reads tree.new) }
    ensures write_fault { IsErrOf result (RecordFault.File FileFault.WriteFault) →
        Rose (F.failed_changes tree.old) (F.failed_changes tree.new) }
    ensures changed { IsTrue F.tells → (p : PathValue) →
        result ≢ Err (RecordFault.File (FileFault.Changed p)) }
{
    clear(page);
    put_redone(alloc, tree, at, redo, block, page)
}

/// Redoes a record on the page of a reference, if its LSN is below the record's end.
pub(crate) fn put_changed<F: Tree, M: Manager>(
    alloc: Global,
    tree: &mut F,
    at: &Files,
    redo: &Redo<M>,
    block: &BlockRef,
    page: &mut Page,
) -> Result<(), RecordFault>
    requires fit { AreFit at.now }
    requires parts { ArePartsOf redo.now.rec.now redo.now.parts.now }
    requires block { block.now.name.block ≢ 0xFFFFFFFF }
    ensures exact { IsTrue F.tells → MeetsInto IsFreeFault
        (older_put at.now.root at.now.per_file redo.now.rec.now block.now.name
        (redone (handed_in M.Manager redo.now.custom) redo.now.rec.now redo.now.parts.now
        block.now) page.old
        (F.contents tree.old))
        (F.contents tree.new) result }
    ensures frame { Came F.Tree tree.old tree.new }
    ensures own { IsTrue F.tells → OnOwn F.calls (is_replayed at.now.root) tree.old tree.new }
    ensures spares { IsTrue F.tells → SparesBlocks F.Tree at.now.root at.now.per_file
        (same_block block.now.name) tree.old tree.new }
    ensures read_fault { IsErrOf result (RecordFault.File FileFault.ReadFault) →
        Rose (F.failed_reads tree.old) (F.failed_reads tree.new) }
    ensures write_fault { IsErrOf result (RecordFault.File FileFault.WriteFault) →
        Rose (F.failed_changes tree.old) (F.failed_changes tree.new) }
    ensures changed { IsTrue F.tells → (p : PathValue) →
        result ≢ Err (RecordFault.File (FileFault.Changed p)) }
{
    if page.lsn() >= redo.rec.end() {
        return Ok(());
    }
    put_redone(alloc, tree, at, redo, block, page)
}
