ghost use Rattle.std.specs.Prelude.{ℕ, ◌≡◌, List, true, false, Ok, IsTrue, length};
ghost use Rattle.wal_records.specs.Reading.{LogRecord};
ghost use Rattle.block_refs.specs.Parts.{PartsView};
ghost use Rattle.page_layout.specs.Page.{IsFormed};
ghost use Rattle.page_layout.specs.Edits.{trimmed};
ghost use Rattle.page_masks.specs.Kind.{is_zero};
ghost use Rattle.page_masks.specs.Law.{Redone, view, SamePage, SameMasks, IsOperation};
ghost use Rattle.page_masks.specs.Mask.{mask};
ghost use Rattle.page_masks.specs.Shapes.{IsHeap};
ghost use Rattle.page_masks.specs.Sound.{is_sound};
ghost use Rattle.page_laws.specs.Results.{TrimmedHeap};
ghost use Rattle.heap_tuples.specs.Heap.{on_heap};
ghost use Rattle.heap_tuples.specs.Put.{put_tuple};
ghost use Rattle.heap_pages.specs.Vacuum.{vacuum_page};
ghost use Rattle.heap_replay.specs.Operation.{heap_fresh, heap_operation};
ghost use Rattle.heap_laws.specs.Edits.{TupleEdit, AreEdits, tuples_edited};
ghost use Rattle.heap_laws.specs.GoodHeap.{GoodHeap};

/// A sound heap page, and every page with its mask: once trimmed, the steps' laws speak of them.
pub fn sound_heaps_are_shown()
    ensures { (block : ℕ) (p q : List ℕ) → IsHeap p → IsTrue (is_sound p) → length q ≡ 8192 →
        mask block p ≡ mask block q → GoodHeap (trimmed p) × GoodHeap (trimmed q) }
{}

/// A new tuple, behind unused lines where lines before it aren't there, respects the mask, and
/// leaves a trimmed heap page.
pub fn put_respects()
    ensures mask { (block place : ℕ) (bytes p q : List ℕ) → TrimmedHeap p → TrimmedHeap q →
        mask block p ≡ mask block q →
        SameMasks (view block) (put_tuple place bytes p) (put_tuple place bytes q) }
    ensures page { (place : ℕ) (bytes p r : List ℕ) → TrimmedHeap p →
        put_tuple place bytes p ≡ Ok r → TrimmedHeap r }
{}

/// Tuples changed one after another, each by a change that its mask determines, respect the mask and
/// leave a trimmed heap page.
pub fn edits_respect()
    ensures mask { (block : ℕ) (edits : List TupleEdit) (p q : List ℕ) → AreEdits block edits →
        TrimmedHeap p → TrimmedHeap q → mask block p ≡ mask block q →
        SameMasks (view block) (tuples_edited edits p) (tuples_edited edits q) }
    ensures page { (block : ℕ) (edits : List TupleEdit) (p r : List ℕ) → AreEdits block edits →
        TrimmedHeap p → tuples_edited edits p ≡ Ok r → TrimmedHeap r }
{}

/// Lines without an item that become unused, one after another, respect the mask and leave a heap
/// page that is a trimmed one once it is trimmed.
pub fn empty_lines_respect()
    ensures mask { (block : ℕ) (places p q : List ℕ) → TrimmedHeap p → TrimmedHeap q →
        mask block p ≡ mask block q →
        SameMasks (view block) (vacuum_page places p) (vacuum_page places q) }
    ensures page { (places p r : List ℕ) → TrimmedHeap p → vacuum_page places p ≡ Ok r →
        IsHeap r × TrimmedHeap (trimmed r) }
{}

/// What is done to the trimmed page, where the page is a heap page, is an operation of the mask's
/// law: where it gives the same refusal or equal masks on trimmed sound pages with equal masks, and
/// keeps 8192 bytes of every well formed page.
pub fn trimmed_operations()
    ensures { (block : ℕ) (go : List ℕ → Redone) →
        ((p r : List ℕ) → IsFormed p → go p ≡ Ok r → length r ≡ 8192) →
        ((p q : List ℕ) → GoodHeap p → GoodHeap q → mask block p ≡ mask block q →
        SameMasks (view block) (go p) (go q)) →
        IsOperation (view block) (λ p. on_heap false go p) }
{}

/// Redo of a record of Heap or Heap2 on the page of a block, without the LSN, keeps the law of the
/// masks, whatever the record, its parts and the reference are: of 8192 bytes it makes 8192 (`size`);
/// a sound page and one with equal LSN and equal mask, as those of any block, get the same refusal,
/// or pages with equal masks (`mask`), also where they are zeros (`zeros`); and a page that is made
/// anew follows from the record alone (`fresh`).
pub fn heap_mask_law()
    ensures size { (rec : LogRecord) (parts : PartsView) (id : ℕ) (p q : List ℕ) →
        length p ≡ 8192 → heap_operation rec parts id p ≡ Ok q → length q ≡ 8192 }
    ensures mask { (rec : LogRecord) (parts : PartsView) (id block : ℕ) →
        IsOperation (view block) (heap_operation rec parts id) }
    ensures zeros { (rec : LogRecord) (parts : PartsView) (id block : ℕ) (p q : List ℕ) →
        length p ≡ 8192 → length q ≡ 8192 → is_zero p ≡ true → SamePage (view block) p q →
        SameMasks (view block) (heap_operation rec parts id p) (heap_operation rec parts id q) }
    ensures fresh { (rec : LogRecord) (parts : PartsView) (id : ℕ) (p q : List ℕ) →
        heap_fresh rec parts id ≡ true →
        heap_operation rec parts id p ≡ heap_operation rec parts id q }
{}
