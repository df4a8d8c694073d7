ghost use Rattle.std.specs.Prelude.{ℕ, ◌≡◌, ◌<◌, List, Bool, length};
ghost use Rattle.page_layout.specs.Lsn.{lsn, with_lsn};
ghost use Rattle.page_masks.specs.Mask.{mask, masked_byte, AreBytes};
ghost use Rattle.page_masks.specs.Law.{Redone, view, stamped, and_then, IsOperation, IsChange, Respects};

/// Masking a masked page changes nothing.
#[tactic(auto, using(crate::proofs::MaskTwice::twice))]
pub fn mask_twice()
    ensures { (block : ℕ) (p : List ℕ) → length p ≡ 8192 → AreBytes p →
        mask block (mask block p) ≡ mask block p }
{}

/// The mask doesn't show the LSN, and a page that gets one has it.
#[tactic(auto, using(crate::proofs::LsnUnshown::lsn_unshown, crate::proofs::LawRules::lsn_rules))]
pub fn masks_without_lsn()
    ensures mask { (block end : ℕ) (p : List ℕ) → length p ≡ 8192 →
        mask block (with_lsn end p) ≡ mask block p }
    ensures lsn { (end : ℕ) (p : List ℕ) → length p ≡ 8192 →
        lsn (with_lsn end p) ≡ end }
{}

/// Pages with equal masks have equal masked bytes, each as it follows from its page.
#[tactic(auto, using(crate::proofs::LawRules::shows))]
pub fn mask_shows()
    ensures { (block i : ℕ) (p q : List ℕ) → mask block p ≡ mask block q → i < 8192 →
        masked_byte block p i ≡ masked_byte block q i }
{}

/// An operation that respects the mask, with a record's end as LSN, is a change of the block.
#[tactic(auto, using(crate::proofs::LawLemmas::stamped_is))]
pub fn stamps()
    ensures { (block end : ℕ) (g : List ℕ → Redone) → 0 < end →
        IsOperation (view block) g → IsChange (view block) end (stamped end g) }
{}

/// Two steps that respect the mask do so one after the other.
#[tactic(auto, using(crate::proofs::LawLemmas::one_then_other))]
pub fn composes()
    ensures { (block : ℕ) (shape : List ℕ → Bool) (f g : List ℕ → Redone) →
        Respects (view block) shape f → Respects (view block) shape g →
        Respects (view block) shape (λ p. and_then (f p) g) }
{}
