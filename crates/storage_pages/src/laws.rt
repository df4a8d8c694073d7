//! Laws: what holds of the definitions, whatever calls them.

ghost use Rattle.std.specs.Prelude.{ℕ, ◌≡◌, ◌≤◌, ◌<◌, ◌⊎◌, List, Ok, Err, length};
ghost use Rattle.block_refs.specs.Parts.{PartsView};
ghost use Rattle.page_layout.specs.declared.refusal.RedoWhy.{RedoWhy};
ghost use Rattle.page_layout.specs.declared.refusal.RedoWhy.TheVariants as why;
ghost use Rattle.page_masks.specs.Law.{view, IsOperation};
ghost use Rattle.storage_replay.specs.MapBits.{map_byte, map_page, map_pair};
ghost use Rattle.storage_pages.specs.SequencePage.{sequence_operation};
ghost use Rattle.wal_records.specs.Reading.{LogRecord};

/// The two bits of a heap block have a place of their own in the map: two blocks with the same
/// page, byte and pair are one, and the byte lies behind the page's header.
pub fn a_bit_has_one_place()
    ensures one { (a b : ℕ) → map_page a ≡ map_page b → map_byte a ≡ map_byte b →
        map_pair a ≡ map_pair b → a ≡ b }
    ensures within { (block : ℕ) →
        (24 ≤ map_byte block) × (map_byte block < 8192) × (map_pair block < 4) }
{}

/// Redo of a sequence's record, without the LSN, is an operation of the masks' law: of 8192 bytes
/// it makes 8192 (`size`), whatever they are (`fresh`). It refuses Layout and Room alone
/// (`refused`).
pub fn sequence_mask_law()
    ensures size { (rec : LogRecord) (parts : PartsView) (id : ℕ) (p q : List ℕ) →
        sequence_operation rec parts id p ≡ Ok q → length q ≡ 8192 }
    ensures mask { (rec : LogRecord) (parts : PartsView) (id block : ℕ) →
        IsOperation (view block) (sequence_operation rec parts id) }
    ensures fresh { (rec : LogRecord) (parts : PartsView) (id : ℕ) (p q : List ℕ) →
        sequence_operation rec parts id p ≡ sequence_operation rec parts id q }
    ensures refused { (rec : LogRecord) (parts : PartsView) (id : ℕ) (p : List ℕ) (w : RedoWhy) →
        sequence_operation rec parts id p ≡ Err w → (w ≡ why.Layout) ⊎ (w ≡ why.Room) }
{}
