//! The page of a block, as it is read, redone and put in place.

ghost use Rattle.std.specs.Prelude.{◌≡◌, ◌≢◌, length, None, Some, IsTrue, Err, IsErrOf, if◌then◌else◌};
ghost use Rattle.block_effects.specs.Effects.{zeros};
ghost use Rattle.block_refs.specs.Parts.{ArePartsOf};
ghost use Rattle.cluster_tree.specs.Causes.{MeetsInto, Rose};
ghost use Rattle.cluster_tree.specs.Frame.{Came, Reads};
ghost use Rattle.cluster_tree.specs.PathValue.{PathValue};
ghost use Rattle.file_edits.specs.Own.{OnOwn};
ghost use Rattle.page_masks.specs.Law.{stamped};
ghost use Rattle.storage_pages.specs.MapPage.{visible_map};
ghost use Rattle.storage_replay.specs.Files.{AreFit};
ghost use Rattle.storage_replay.specs.Reading.{ReadsBlock, block_read};
ghost use Rattle.block_replay.specs.Blocks.{redone};
ghost use Rattle.block_replay.specs.Faults.{IsFreeFault, Leaves, of_redo};
ghost use Rattle.file_effects.specs.Own.{is_replayed};
ghost use Rattle.file_effects.specs.Touched.{SparesBlocks};
ghost use Rattle.storage_laws.specs.Names.{same_block};
ghost use Rattle.block_replay.specs.Pages.{image_at, image_left, page_put};
ghost use Rattle.rmgr_hooks.specs.Custom.{handed_in};

use crate::faults::RecordFault;
use crate::redo::Redo;
use block_refs::{BlockName, BlockRef, Parts, image_page};
use cluster_tree::{FileFault, Tree};
use page_layout::Page;
use rmgr_hooks::Manager;
use std::alloc::Global;
use storage_pages::redo_map;
use storage_replay::{Files, Found, read_block, write_block};
use wal_records::Record;

fn fill_zeros(bytes: &mut [u8])
    requires { length bytes.old ≡ 8192 }
    ensures { bytes.new ≡ zeros }
{
    bytes.fill(0);
}

/// Makes a page one of zeros.
#[tactic(auto, using(page_layout::proofs::Lent::over_same))]
pub(crate) fn clear(page: &mut Page)
    ensures { page.new ≡ zeros }
{
    fill_zeros(page.bytes_mut());
}

// Writes the image of a reference over bytes, if there is one.
fn write_image(rec: &Record, parts: &Parts, id: u8, bytes: &mut [u8]) -> bool
    requires parts { ArePartsOf rec.now parts.now }
    requires size { length bytes.old ≡ 8192 }
    ensures { image_at rec.now parts.now id ≡ (if result then Some bytes.new else None) }
{
    image_page(rec, parts, id, bytes)
}

/// Makes a page the image of a reference, if there is one.
#[tactic(auto, using(page_layout::proofs::Lent::over_same))]
pub(crate) fn make_image(rec: &Record, parts: &Parts, id: u8, page: &mut Page) -> bool
    requires parts { ArePartsOf rec.now parts.now }
    ensures { image_at rec.now parts.now id ≡ (if result then Some page.new else None) }
{
    write_image(rec, parts, id, page.bytes_mut())
}

/// Reads a block into a page: one that isn't there as zeros.
pub(crate) fn read_page<F: Tree>(
    alloc: Global,
    tree: &mut F,
    at: &Files,
    name: BlockName,
    page: &mut Page,
) -> Result<Found, FileFault>
    requires fit { AreFit at.now }
    requires block { name.block ≢ 0xFFFFFFFF }
    ensures exact { IsTrue F.tells → ReadsBlock (block_read at.now.root at.now.per_file name
        (F.contents tree.old) zeros) page.new result }
    ensures frame { Reads F.Tree tree.old tree.new }
    ensures read_fault { IsErrOf result FileFault.ReadFault →
        Rose (F.failed_reads tree.old) (F.failed_reads tree.new) }
    ensures write_fault { result ≢ Err FileFault.WriteFault }
    ensures changed { IsTrue F.tells → (p : PathValue) → result ≢ Err (FileFault.Changed p) }
{
    clear(page);
    read_block(alloc, tree, at, name, page)
}

/// Puts a page in the place of a block.
pub(crate) fn put_page<F: Tree>(
    alloc: Global,
    tree: &mut F,
    at: &Files,
    name: BlockName,
    page: &Page,
) -> Result<(), RecordFault>
    requires fit { AreFit at.now }
    requires block { name.block ≢ 0xFFFFFFFF }
    ensures exact { IsTrue F.tells → MeetsInto IsFreeFault (page_put at.now.root at.now.per_file
        name page.now (F.contents tree.old)) (F.contents tree.new) result }
    ensures frame { Came F.Tree tree.old tree.new }
    ensures own { IsTrue F.tells → OnOwn F.calls (is_replayed at.now.root) tree.old tree.new }
    ensures spares { IsTrue F.tells → SparesBlocks F.Tree at.now.root at.now.per_file
        (same_block name) tree.old tree.new }
    ensures read_fault { IsErrOf result (RecordFault.File FileFault.ReadFault) →
        Rose (F.failed_reads tree.old) (F.failed_reads tree.new) }
    ensures write_fault { IsErrOf result (RecordFault.File FileFault.WriteFault) →
        Rose (F.failed_changes tree.old) (F.failed_changes tree.new) }
    ensures changed { IsTrue F.tells → (p : PathValue) →
        result ≢ Err (RecordFault.File (FileFault.Changed p)) }
{
    write_block(alloc, tree, at, name, page)?;
    Ok(())
}

/// Writes the record's end as LSN, where the page isn't all zeros.
pub(crate) fn stamp_image(rec: &Record, page: &mut Page)
    ensures { page.new ≡ image_left rec.now.end page.old }
{
    if !page.is_zero() {
        page.set_lsn(rec.end());
    }
}

/// Redoes a record on the page of a reference.
pub(crate) fn redo_page<M: Manager>(
    redo: &Redo<M>,
    block: &BlockRef,
    page: &mut Page,
) -> Result<(), RecordFault>
    requires parts { ArePartsOf redo.now.rec.now redo.now.parts.now }
    ensures exact { Leaves (of_redo redo.now.rec.now block.now.name
        (redone (handed_in M.Manager redo.now.custom) redo.now.rec.now redo.now.parts.now block.now
        page.old)) page.new result }
{
    match record_effects::redo(redo.rec, redo.parts, block.id, page, redo.custom) {
        Ok(()) => Ok(()),
        Err(why) => Err(RecordFault::RedoFailed(redo.rec.start(), block.name, why)),
    }
}

/// Sets the bits of VISIBLE in the map's page.
pub(crate) fn redo_map_page(
    rec: &Record,
    parts: &Parts,
    name: BlockName,
    page: &mut Page,
) -> Result<(), RecordFault>
    requires parts { ArePartsOf rec.now parts.now }
    ensures exact { Leaves (of_redo rec.now name (stamped rec.now.end (visible_map rec.now parts.now)
        page.old)) page.new result }
{
    match redo_map(rec, parts, page) {
        Ok(()) => Ok(()),
        Err(why) => Err(RecordFault::RedoFailed(rec.start(), name, why)),
    }
}
