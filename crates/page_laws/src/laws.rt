ghost use Rattle.std.specs.Prelude.{ℕ, ◌≡◌, ◌+◌, ◌<◌, ◌≤◌, ◌==◌, List, length, true, Ok, IsTrue, if◌then◌else◌};
ghost use Rattle.layout.specs.Splice.{splice};
ghost use Rattle.page_layout.specs.Bytes.{u16_at, with_u16};
ghost use Rattle.page_layout.specs.Page.{count, lp_flags, lp_len};
ghost use Rattle.page_layout.specs.Edits.{with_pointer, add_item, trimmed};
ghost use Rattle.page_layout.specs.Pack.{pack};
ghost use Rattle.page_masks.specs.Mask.{mask, masked_infomask};
ghost use Rattle.page_masks.specs.Shapes.{HeapPage, IsHeap, OnlyHead};
ghost use Rattle.page_masks.specs.Sound.{is_sound};
ghost use Rattle.page_laws.specs.Change.{edited, ItemChange};
ghost use Rattle.page_laws.specs.Results.{SameResults, TrimmedHeap};
ghost use Rattle.page_laws.specs.Shown.{SameHeapItems};
ghost use Rattle.page_laws.specs.Steps.{Setting, AreSettings, lines_set};

/// Trimming a heap page doesn't show, nor do its LSN, checksum, three flags and prune xid.
#[tactic(auto, using(crate::proofs::StepLaws::trim_unshown, crate::proofs::StepLaws::head_unshown))]
pub fn unshown()
    ensures trim { (block : ℕ) (p : List ℕ) → IsHeap p → mask block (trimmed p) ≡ mask block p }
    ensures head { (block : ℕ) (p q : List ℕ) → HeapPage p → OnlyHead p q →
        mask block q ≡ mask block p }
{}

/// Trimmed heap pages with equal masks have the same lines, and items that look the same: of tuples
/// all bytes from the header's last on, `t_hoff`, are the same.
#[tactic(auto, using(crate::proofs::HeapShown::heap_shown))]
pub fn heap_shown()
    ensures { (block : ℕ) (p q : List ℕ) → TrimmedHeap p → TrimmedHeap q →
        mask block p ≡ mask block q → SameHeapItems block p q }
{}

/// A change of one tuple that its mask determines respects the mask.
#[tactic(auto, using(crate::proofs::StepLaws::edit_respects))]
pub fn edit_respects()
    ensures { (block k : ℕ) (change : List ℕ → List ℕ) (p q : List ℕ) →
        ItemChange block (k + 1) change → TrimmedHeap p → TrimmedHeap q →
        k < count p → lp_flags p k ≡ 1 → 23 ≤ lp_len p k → mask block p ≡ mask block q →
        mask block (edited k change p) ≡ mask block (edited k change q) }
{}

/// Adding an item over an unused line or at the end respects the mask.
#[tactic(auto, using(crate::proofs::StepLaws::add_respects))]
pub fn add_respects()
    ensures { (block place : ℕ) (p q bytes : List ℕ) → TrimmedHeap p → TrimmedHeap q →
        mask block p ≡ mask block q →
        SameResults block (add_item p bytes place true) (add_item q bytes place true) }
{}

/// A line without an item that gets other numbers, and no item, respects the mask.
#[tactic(auto, using(crate::proofs::StepLaws::empty_line_respects))]
pub fn empty_line_respects()
    ensures { (block k off flags : ℕ) (p q : List ℕ) → off < 32768 → flags < 4 →
        TrimmedHeap p → TrimmedHeap q → k < count p → lp_len p k ≡ 0 →
        mask block p ≡ mask block q →
        mask block (with_pointer p k off flags 0) ≡ mask block (with_pointer q k off flags 0) }
{}

/// Lines that lose their items and then a packed page, as one step, respect the mask.
#[tactic(auto, using(crate::proofs::StepLaws::prune_respects))]
pub fn prune_respects()
    ensures { (block : ℕ) (settings : List Setting) (p q : List ℕ) →
        TrimmedHeap p → TrimmedHeap q → AreSettings (count p) settings →
        mask block p ≡ mask block q →
        SameResults block (pack (lines_set settings p)) (pack (lines_set settings q)) }
{}

/// A sound heap page, and every page with its mask: once trimmed, the steps' laws speak of them.
pub fn trims_alike()
    ensures { (block : ℕ) (p q : List ℕ) → IsHeap p → IsTrue (is_sound p) → length q ≡ 8192 →
        mask block p ≡ mask block q → TrimmedHeap (trimmed p) × TrimmedHeap (trimmed q) }
{}

/// What a step leaves of a page that the steps' laws speak of is such a page again. (Lines that were
/// set, and a packed page, may end in unused ones.)
pub fn heap_steps_keep()
    ensures head { (p q : List ℕ) → TrimmedHeap p → OnlyHead p q → TrimmedHeap q }
    ensures edit { (block k : ℕ) (change : List ℕ → List ℕ) (p : List ℕ) →
        ItemChange block (k + 1) change → TrimmedHeap p → k < count p → 23 ≤ lp_len p k →
        TrimmedHeap (edited k change p) }
    ensures add { (place : ℕ) (p bytes r : List ℕ) → TrimmedHeap p →
        add_item p bytes place true ≡ Ok r → TrimmedHeap r }
{}

/// Changes of a tuple that its mask determines: bytes over those below 12, all bytes from a place
/// behind the header on, an address, the second infomask by a function, the first by one that what
/// shows of it determines, and one change after another.
pub fn tuple_changes()
    ensures low { (block place at : ℕ) (bytes : List ℕ) → at + length bytes ≤ 12 →
        ItemChange block place (λ x. splice x at bytes) }
    ensures tail { (block place at : ℕ) (bytes : List ℕ) → 23 ≤ at → ItemChange block place
        (λ x. if at + length bytes == length x then splice x at bytes else x) }
    ensures address { (block place : ℕ) (bytes : List ℕ) → length bytes ≡ 6 →
        ItemChange block place (λ x. splice x 12 bytes) }
    ensures infomask2 { (block place : ℕ) (g : ℕ → ℕ) →
        ItemChange block place (λ x. with_u16 x 18 (g (u16_at x 18))) }
    ensures infomask { (block place : ℕ) (g : ℕ → ℕ) →
        ((v w : ℕ) → masked_infomask v ≡ masked_infomask w →
        masked_infomask (g v) ≡ masked_infomask (g w)) →
        ItemChange block place (λ x. with_u16 x 20 (g (u16_at x 20))) }
    ensures both { (block place : ℕ) (f g : List ℕ → List ℕ) → ItemChange block place f →
        ItemChange block place g → ItemChange block place (λ x. g (f x)) }
{}
