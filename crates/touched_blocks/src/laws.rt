//! Laws: what holds of the definitions, whatever calls them.

ghost use Rattle.std.specs.Prelude.{◌≡◌, ◌↔◌, ℕ, List, true};
ghost use Rattle.block_refs.specs.declared.names.RelName.{RelName};
ghost use Rattle.wal_records.specs.Reading.{LogRecord};
ghost use Rattle.touched_blocks.specs.Layouts.{Touches, TouchesBlock};
ghost use Rattle.touched_blocks.specs.Touched.{names_block, touches};

/// What records name is what their layouts say, field by field: of one record and of a list.
pub fn touched_blocks_are_written_out()
    ensures one { (rec : LogRecord) (rel : RelName) (block : ℕ) →
        (names_block rec rel block ≡ true) ↔ TouchesBlock rec rel block }
    ensures all { (records : List LogRecord) (rel : RelName) (block : ℕ) →
        (touches records rel block ≡ true) ↔ Touches records rel block }
{}
