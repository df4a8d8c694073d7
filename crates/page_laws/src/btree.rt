ghost use Rattle.std.specs.Prelude.{ℕ, ◌≡◌, ◌+◌, ◌≤◌, ◌⊎◌, ◌↔◌, List, [], ◌∷◌, length, false, Ok};
ghost use Rattle.layout.specs.Splice.{splice};
ghost use Rattle.page_layout.specs.Apart.{AreApart};
ghost use Rattle.page_layout.specs.Bytes.{byte, with_u16};
ghost use Rattle.page_layout.specs.Page.{count};
ghost use Rattle.page_layout.specs.Edits.{add_item, init_bytes};
ghost use Rattle.page_layout.specs.Deletes.{delete_items};
ghost use Rattle.page_layout.specs.Overwrite.{overwrite_item};
ghost use Rattle.page_masks.specs.declared.kind.PageKind.TheVariants as PageKind;
ghost use Rattle.page_masks.specs.Kind.{kind_of};
ghost use Rattle.page_masks.specs.Mask.{mask, shown_flags};
ghost use Rattle.page_laws.specs.Btree.{BtreePage, SameBtreeItems, made_anew, SpecialChange, StaysLeaf, with_special};
ghost use Rattle.page_laws.specs.Results.{SameResults};

/// `BtreePage` is the kind B-tree.
pub fn btree_kind()
    ensures { (p : List ℕ) → length p ≡ 8192 → BtreePage p ↔ (kind_of p ≡ PageKind.Btree) }
{}

/// Every page with the mask of a B-tree page is one, with the same lines' places and items.
#[tactic(auto, using(crate::proofs::BtreeShown::btree_shown, crate::proofs::BtreeShown::btree_items))]
pub fn btree_shown()
    ensures page { (block : ℕ) (p q : List ℕ) → BtreePage p → length q ≡ 8192 →
        mask block p ≡ mask block q → BtreePage q }
    ensures items { (block : ℕ) (p q : List ℕ) → BtreePage p → BtreePage q →
        mask block p ≡ mask block q → SameBtreeItems p q }
{}

/// Adding an item to a B-tree page, the later lines moved up, respects the mask.
#[tactic(auto, using(crate::proofs::BtreeAdd::add_respects))]
pub fn btree_add_respects()
    ensures mask { (block place : ℕ) (p q bytes : List ℕ) → BtreePage p → BtreePage q →
        mask block p ≡ mask block q →
        SameResults block (add_item p bytes place false) (add_item q bytes place false) }
    ensures page { (place : ℕ) (p bytes r : List ℕ) → BtreePage p →
        add_item p bytes place false ≡ Ok r → BtreePage r }
{}

/// Deleting items of a B-tree page respects the mask.
#[tactic(auto, using(crate::proofs::BtreeDelete::delete_respects))]
pub fn btree_delete_respects()
    ensures mask { (block : ℕ) (p q places : List ℕ) → BtreePage p → BtreePage q →
        mask block p ≡ mask block q →
        SameResults block (delete_items p places) (delete_items q places) }
    ensures page { (p places r : List ℕ) → BtreePage p →
        delete_items p places ≡ Ok r → BtreePage r }
{}

/// Laying an item over one of a B-tree page whose items don't overlap respects the mask.
#[tactic(auto, using(crate::proofs::BtreeOverwrite::overwrite_respects))]
pub fn btree_overwrite_respects()
    ensures mask { (block place : ℕ) (p q bytes : List ℕ) → BtreePage p → BtreePage q → AreApart p →
        mask block p ≡ mask block q →
        SameResults block (overwrite_item p place bytes) (overwrite_item q place bytes) }
    ensures page { (place : ℕ) (p bytes r : List ℕ) → BtreePage p → AreApart p →
        overwrite_item p place bytes ≡ Ok r → BtreePage r × AreApart r }
{}

/// Making a B-tree page anew, its special space kept, respects the mask; an empty page with 16
/// bytes of special space is a B-tree page.
pub fn btree_init_respects()
    ensures mask { (block : ℕ) (p q : List ℕ) → BtreePage p → BtreePage q →
        mask block p ≡ mask block q → mask block (made_anew p) ≡ mask block (made_anew q) }
    ensures page { (p : List ℕ) → BtreePage p → BtreePage (made_anew p) }
    ensures empty { BtreePage (init_bytes 16) }
{}

/// A change of the special space that what is shown of it determines respects the mask: any such
/// change of a page without lines, and else one that leaves a leaf a leaf.
pub fn btree_special_respects()
    ensures mask { (block : ℕ) (change : List ℕ → List ℕ) (p q : List ℕ) →
        SpecialChange change → BtreePage p → BtreePage q → StaysLeaf change ⊎ (count p ≡ 0) →
        mask block p ≡ mask block q →
        mask block (with_special change p) ≡ mask block (with_special change q) }
    ensures page { (change : List ℕ → List ℕ) (p : List ℕ) → SpecialChange change →
        BtreePage p → BtreePage (with_special change p) }
{}

/// Changes of a special space that what is shown of it determines: bytes laid over links and level,
/// flags that follow from the flags shown, a cycle id, and one change after another.
pub fn special_changes()
    ensures links { (at : ℕ) (bytes : List ℕ) → at + length bytes ≤ 12 →
        SpecialChange (λ x. splice x at bytes) × StaysLeaf (λ x. splice x at bytes) }
    ensures flags { (f : ℕ → ℕ) →
        ((b c : ℕ) → shown_flags b ≡ shown_flags c → shown_flags (f b) ≡ shown_flags (f c)) →
        SpecialChange (λ x. splice x 12 (f (byte x 12) ∷ [])) }
    ensures cycle { (n : ℕ) → n ≤ 0xFF7F →
        SpecialChange (λ x. with_u16 x 14 n) × StaysLeaf (λ x. with_u16 x 14 n) }
    ensures both { (f g : List ℕ → List ℕ) → SpecialChange f → SpecialChange g →
        SpecialChange (λ x. g (f x)) }
{}
