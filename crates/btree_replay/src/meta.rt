//! Metapages that a record holds whole.

ghost use Rattle.std.specs.Prelude.{ℕ, ◌≡◌, length};
ghost use Rattle.block_refs.specs.Parts.{ArePartsOf};
ghost use Rattle.redo_steps.specs.Redo.{Makes};
ghost use Rattle.btree_replay.specs.Meta.{meta_operation};

use block_layouts::metapage;
use block_refs::Parts;
use btree_pages::redo_meta;
use page_layout::RedoWhy;
use redo_reads::bytes_for;
use wal_records::Record;

/// The page of the block with this id becomes the metapage of its bytes.
pub fn meta(rec: &Record, parts: &Parts, id: u8, page: &mut [u8]) -> Result<(), RedoWhy>
    requires parts { ArePartsOf rec.now parts.now }
    requires size { length page.old ≡ 8192 }
    ensures { Makes (meta_operation rec.now parts.now id) result page.new }
{
    let bytes = bytes_for(rec, parts, id)?;
    let Some(fields) = metapage(bytes) else {
        return Err(RedoWhy::Layout);
    };
    redo_meta(page, &fields);
    Ok(())
}
