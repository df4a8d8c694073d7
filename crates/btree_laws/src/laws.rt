ghost use Rattle.std.specs.Prelude.{ℕ, ◌≡◌, List, true, Ok, IsTrue, length};
ghost use Rattle.wal_records.specs.Reading.{LogRecord};
ghost use Rattle.block_refs.specs.Parts.{PartsView};
ghost use Rattle.page_masks.specs.Kind.{is_zero};
ghost use Rattle.page_masks.specs.Law.{view, SamePage, SameMasks, IsOperation};
ghost use Rattle.btree_posting.specs.Posting.{posting_operation};
ghost use Rattle.btree_replay.specs.Operation.{btree_fresh, btree_operation};

/// Redo of a record of Btree on the page of a block, without the LSN, keeps the law of the masks,
/// whatever the record, its parts and the reference are: of 8192 bytes it makes 8192 (`size`); a
/// sound page and one with equal LSN and equal mask, as those of any block, get the same refusal, or
/// pages with equal masks (`mask`), also where they are zeros (`zeros`); and a page that is made
/// anew follows from the record alone (`fresh`).
pub fn btree_mask_law()
    ensures size { (rec : LogRecord) (parts : PartsView) (id : ℕ) (p q : List ℕ) →
        length p ≡ 8192 → btree_operation rec parts id p ≡ Ok q → length q ≡ 8192 }
    ensures mask { (rec : LogRecord) (parts : PartsView) (id block : ℕ) →
        IsOperation (view block) (btree_operation rec parts id) }
    ensures zeros { (rec : LogRecord) (parts : PartsView) (id block : ℕ) (p q : List ℕ) →
        length p ≡ 8192 → length q ≡ 8192 → is_zero p ≡ true → SamePage (view block) p q →
        SameMasks (view block) (btree_operation rec parts id p) (btree_operation rec parts id q) }
    ensures fresh { (rec : LogRecord) (parts : PartsView) (id : ℕ) (p q : List ℕ) →
        btree_fresh rec parts id ≡ true →
        btree_operation rec parts id p ≡ btree_operation rec parts id q }
{}

/// The same of a record that has to do with posting lists, whatever the record, its parts and the
/// reference are: of 8192 bytes it makes 8192 (`size`), and a sound page and one with equal LSN and
/// equal mask get the same refusal, or pages with equal masks (`mask`).
pub fn posting_mask_law()
    ensures size { (rec : LogRecord) (parts : PartsView) (id : ℕ) (p q : List ℕ) →
        length p ≡ 8192 → posting_operation rec parts id p ≡ Ok q → length q ≡ 8192 }
    ensures mask { (rec : LogRecord) (parts : PartsView) (id block : ℕ) →
        IsOperation (view block) (posting_operation rec parts id) }
{}
