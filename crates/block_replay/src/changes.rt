//! Changes of pages that have to be read first.

ghost use Rattle.std.specs.Prelude.{◌≢◌, IsTrue, Err, IsErrOf};
ghost use Rattle.block_refs.specs.Parts.{ArePartsOf};
ghost use Rattle.cluster_tree.specs.Causes.{MeetsInto, Rose};
ghost use Rattle.cluster_tree.specs.Frame.{Came};
ghost use Rattle.cluster_tree.specs.PathValue.{PathValue};
ghost use Rattle.file_edits.specs.Own.{OnOwn};
ghost use Rattle.page_masks.specs.Law.{stamped};
ghost use Rattle.storage_pages.specs.MapPage.{visible_map};
ghost use Rattle.storage_replay.specs.Files.{AreFit};
ghost use Rattle.block_replay.specs.Faults.{IsFreeFault};
ghost use Rattle.file_effects.specs.Own.{is_replayed};
ghost use Rattle.file_effects.specs.Touched.{SparesBlocks, no_block_taken};
ghost use Rattle.storage_laws.specs.Names.{same_block};
ghost use Rattle.block_replay.specs.Blocks.{change_at, change_skipped, changed, map_changed};
ghost use Rattle.block_replay.specs.Pages.{older_put, redone_put};
ghost use Rattle.rmgr_hooks.specs.Custom.{handed_in};

use crate::acts::put_changed;
use crate::faults::RecordFault;
use crate::pages::{put_page, read_page, redo_map_page};
use crate::redo::Redo;
use crate::skipped::Skipped;
use block_refs::{BlockName, BlockRef, Parts};
use cluster_tree::{FileFault, Tree};
use page_layout::Page;
use rmgr_hooks::Manager;
use std::alloc::Global;
use storage_replay::{Files, Found, create};
use wal_records::Record;

/// Sets the bits of VISIBLE in the map's page, and puts it in place.
fn put_map<F: Tree>(
    alloc: Global,
    tree: &mut F,
    at: &Files,
    rec: &Record,
    parts: &Parts,
    name: BlockName,
    page: &mut Page,
) -> Result<(), RecordFault>
    requires fit { AreFit at.now }
    requires parts { ArePartsOf rec.now parts.now }
    requires block { name.block ≢ 0xFFFFFFFF }
    ensures exact { IsTrue F.tells → MeetsInto IsFreeFault
        (redone_put at.now.root at.now.per_file rec.now name
        (stamped rec.now.end (visible_map rec.now parts.now) page.old) (F.contents tree.old))
        (F.contents tree.new) result }
    ensures frame { Came F.Tree tree.old tree.new }
    ensures own { IsTrue F.tells → OnOwn F.calls (is_replayed at.now.root) tree.old tree.new }
    ensures spares { IsTrue F.tells → SparesBlocks F.Tree at.now.root at.now.per_file
        (same_block name) tree.old tree.new }
    ensures read_fault { IsErrOf result (RecordFault.File FileFault.ReadFault) →
        Rose (F.failed_reads tree.old) (F.failed_reads tree.new) }
    ensures write_fault { IsErrOf result (RecordFault.File FileFault.WriteFault) →
        Rose (F.failed_changes tree.old) (F.failed_changes tree.new) }
    ensures changed { IsTrue F.tells → (p : PathValue) →
        result ≢ Err (RecordFault.File (FileFault.Changed p)) }
{
    redo_map_page(rec, parts, name, page)?;
    put_page(alloc, tree, at, name, page)
}

/// The same, if the page's LSN is below the record's end.
fn put_older_map<F: Tree>(
    alloc: Global,
    tree: &mut F,
    at: &Files,
    rec: &Record,
    parts: &Parts,
    name: BlockName,
    page: &mut Page,
) -> Result<(), RecordFault>
    requires fit { AreFit at.now }
    requires parts { ArePartsOf rec.now parts.now }
    requires block { name.block ≢ 0xFFFFFFFF }
    ensures exact { IsTrue F.tells → MeetsInto IsFreeFault
        (older_put at.now.root at.now.per_file rec.now name
        (stamped rec.now.end (visible_map rec.now parts.now)) page.old (F.contents tree.old))
        (F.contents tree.new) result }
    ensures frame { Came F.Tree tree.old tree.new }
    ensures own { IsTrue F.tells → OnOwn F.calls (is_replayed at.now.root) tree.old tree.new }
    ensures spares { IsTrue F.tells → SparesBlocks F.Tree at.now.root at.now.per_file
        (same_block name) tree.old tree.new }
    ensures read_fault { IsErrOf result (RecordFault.File FileFault.ReadFault) →
        Rose (F.failed_reads tree.old) (F.failed_reads tree.new) }
    ensures write_fault { IsErrOf result (RecordFault.File FileFault.WriteFault) →
        Rose (F.failed_changes tree.old) (F.failed_changes tree.new) }
    ensures changed { IsTrue F.tells → (p : PathValue) →
        result ≢ Err (RecordFault.File (FileFault.Changed p)) }
{
    if page.lsn() >= rec.end() {
        return Ok(());
    }
    put_map(alloc, tree, at, rec, parts, name, page)
}

/// Sets the bits of VISIBLE in the map's page where it is older, or missing.
pub(crate) fn set_map_bits<F: Tree>(
    alloc: Global,
    tree: &mut F,
    at: &Files,
    rec: &Record,
    parts: &Parts,
    name: BlockName,
    page: &mut Page,
) -> Result<(), RecordFault>
    requires fit { AreFit at.now }
    requires parts { ArePartsOf rec.now parts.now }
    requires block { name.block ≢ 0xFFFFFFFF }
    ensures exact { IsTrue F.tells → MeetsInto IsFreeFault
        (map_changed at.now.root at.now.per_file rec.now parts.now name
        (F.contents tree.old))
        (F.contents tree.new) result }
    ensures frame { Came F.Tree tree.old tree.new }
    ensures own { IsTrue F.tells → OnOwn F.calls (is_replayed at.now.root) tree.old tree.new }
    ensures spares { IsTrue F.tells → SparesBlocks F.Tree at.now.root at.now.per_file
        (same_block name) tree.old tree.new }
    ensures read_fault { IsErrOf result (RecordFault.File FileFault.ReadFault) →
        Rose (F.failed_reads tree.old) (F.failed_reads tree.new) }
    ensures write_fault { IsErrOf result (RecordFault.File FileFault.WriteFault) →
        Rose (F.failed_changes tree.old) (F.failed_changes tree.new) }
    ensures changed { IsTrue F.tells → (p : PathValue) →
        result ≢ Err (RecordFault.File (FileFault.Changed p)) }
{
    read_page(alloc, tree, at, name, page)?;
    put_older_map(alloc, tree, at, rec, parts, name, page)
}

/// Skips the change of a block without a page.
fn skip<F: Tree>(
    alloc: Global,
    tree: &mut F,
    at: &Files,
    skipped: &mut Skipped,
    name: BlockName,
) -> Result<(), RecordFault>
    requires fit { AreFit at.now }
    ensures exact { IsTrue F.tells → MeetsInto IsFreeFault
        (change_skipped at.now.root name
        (record { files = F.contents tree.old; skipped = skipped.old }))
        (record { files = F.contents tree.new; skipped = skipped.new }) result }
    ensures frame { Came F.Tree tree.old tree.new }
    ensures own { IsTrue F.tells → OnOwn F.calls (is_replayed at.now.root) tree.old tree.new }
    ensures spares { IsTrue F.tells → SparesBlocks F.Tree at.now.root at.now.per_file
        no_block_taken tree.old tree.new }
    ensures read_fault { IsErrOf result (RecordFault.File FileFault.ReadFault) →
        Rose (F.failed_reads tree.old) (F.failed_reads tree.new) }
    ensures write_fault { IsErrOf result (RecordFault.File FileFault.WriteFault) →
        Rose (F.failed_changes tree.old) (F.failed_changes tree.new) }
    ensures changed { IsTrue F.tells → (p : PathValue) →
        result ≢ Err (RecordFault.File (FileFault.Changed p)) }
{
    create(alloc, tree, at, name.rel, name.fork)?;
    skipped.add(name)?;
    Ok(())
}

/// Changes a block as it was found.
fn change_found<F: Tree, M: Manager>(
    alloc: Global,
    tree: &mut F,
    at: &Files,
    skipped: &mut Skipped,
    redo: &Redo<M>,
    block: &BlockRef,
    found: Found,
    page: &mut Page,
) -> Result<(), RecordFault>
    requires fit { AreFit at.now }
    requires parts { ArePartsOf redo.now.rec.now redo.now.parts.now }
    requires block { block.now.name.block ≢ 0xFFFFFFFF }
    ensures exact { IsTrue F.tells → MeetsInto IsFreeFault
        (change_at (handed_in M.Manager redo.now.custom) at.now.root at.now.per_file
        redo.now.rec.now redo.now.parts.now
        block.now
        (record { files = F.contents tree.old; skipped = skipped.old })
        found page.old)
        (record { files = F.contents tree.new; skipped = skipped.new }) result }
    ensures frame { Came F.Tree tree.old tree.new }
    ensures own { IsTrue F.tells → OnOwn F.calls (is_replayed at.now.root) tree.old tree.new }
    ensures spares { IsTrue F.tells → SparesBlocks F.Tree at.now.root at.now.per_file
        (same_block block.now.name) tree.old tree.new }
    ensures read_fault { IsErrOf result (RecordFault.File FileFault.ReadFault) →
        Rose (F.failed_reads tree.old) (F.failed_reads tree.new) }
    ensures write_fault { IsErrOf result (RecordFault.File FileFault.WriteFault) →
        Rose (F.failed_changes tree.old) (F.failed_changes tree.new) }
    ensures changed { IsTrue F.tells → (p : PathValue) →
        result ≢ Err (RecordFault.File (FileFault.Changed p)) }
{
    match found {
        Found::Page => put_changed(alloc, tree, at, redo, block, page),
        Found::Absent | Found::Zero => skip(alloc, tree, at, skipped, block.name),
    }
}

/// Changes the block of a reference.
pub(crate) fn change<F: Tree, M: Manager>(
    alloc: Global,
    tree: &mut F,
    at: &Files,
    skipped: &mut Skipped,
    redo: &Redo<M>,
    block: &BlockRef,
    page: &mut Page,
) -> Result<(), RecordFault>
    requires fit { AreFit at.now }
    requires parts { ArePartsOf redo.now.rec.now redo.now.parts.now }
    requires block { block.now.name.block ≢ 0xFFFFFFFF }
    ensures exact { IsTrue F.tells → MeetsInto IsFreeFault
        (changed (handed_in M.Manager redo.now.custom) at.now.root at.now.per_file
        redo.now.rec.now redo.now.parts.now
        block.now
        (record { files = F.contents tree.old; skipped = skipped.old }))
        (record { files = F.contents tree.new; skipped = skipped.new }) result }
    ensures frame { Came F.Tree tree.old tree.new }
    ensures own { IsTrue F.tells → OnOwn F.calls (is_replayed at.now.root) tree.old tree.new }
    ensures spares { IsTrue F.tells → SparesBlocks F.Tree at.now.root at.now.per_file
        (same_block block.now.name) tree.old tree.new }
    ensures read_fault { IsErrOf result (RecordFault.File FileFault.ReadFault) →
        Rose (F.failed_reads tree.old) (F.failed_reads tree.new) }
    ensures write_fault { IsErrOf result (RecordFault.File FileFault.WriteFault) →
        Rose (F.failed_changes tree.old) (F.failed_changes tree.new) }
    ensures changed { IsTrue F.tells → (p : PathValue) →
        result ≢ Err (RecordFault.File (FileFault.Changed p)) }
{
    let found = read_page(alloc, tree, at, block.name, page)?;
    change_found(alloc, tree, at, skipped, redo, block, found, page)
}
