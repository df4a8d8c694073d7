//! What redo reads of a record.

ghost use Rattle.std.specs.Prelude.{ℕ, ◌≡◌, Some, None, MatchResult};
ghost use Rattle.page_layout.specs.declared.refusal.RedoWhy.TheVariants as RedoWhy;
ghost use Rattle.block_refs.specs.Parts.{ArePartsOf};
ghost use Rattle.redo_reads.specs.Given.{bytes_for, number_at};

use block_refs::Parts;
use page_layout::RedoWhy;
use wal_records::Record;

/// The bytes of the block with an id. Answers `Layout` where no reference has the id.
pub fn bytes_for<'a>(rec: &'a Record, parts: &Parts, id: u8) -> Result<&'a [u8], RedoWhy>
    requires parts { ArePartsOf rec.now parts.now }
    ensures value { MatchResult result (λ bytes. bytes_for rec.now parts.now id ≡ Some bytes.now)
        (λ why. (bytes_for rec.now parts.now id ≡ None) × (why ≡ RedoWhy.Layout)) }
{
    match parts.block_bytes(rec, id) {
        Some(bytes) => Ok(bytes),
        None => Err(RedoWhy::Layout),
    }
}

/// The number of the block with an id. Answers `Layout` where no reference has the id.
pub fn number_at(parts: &Parts, id: u8) -> Result<u32, RedoWhy>
    ensures value { MatchResult result (λ block. number_at parts.now id ≡ Some block)
        (λ why. (number_at parts.now id ≡ None) × (why ≡ RedoWhy.Layout)) }
{
    match parts.block(id) {
        Some(block) => Ok(block.name.block),
        None => Err(RedoWhy::Layout),
    }
}
