ghost use Rattle.std.specs.Prelude.{ℕ, ◌≡◌, List, Bool, Err, length, if◌then◌else◌};
ghost use Rattle.page_layout.specs.declared.refusal.RedoWhy.{RedoWhy};
ghost use Rattle.page_masks.specs.Mask.{mask};
ghost use Rattle.page_masks.specs.Law.{Redone, view, IsOperation, Respects};

/// Steps that respect the mask on pages of a shape that it shows are an operation, where other pages
/// are refused.
#[tactic(auto, using(crate::proofs::StepsTogether::refused_operation))]
pub fn steps_are_an_operation()
    ensures { (block : ℕ) (shape : List ℕ → Bool) (g : List ℕ → Redone) (why : RedoWhy) →
        ((p q : List ℕ) → length p ≡ 8192 → length q ≡ 8192 →
        mask block p ≡ mask block q → shape p ≡ shape q) →
        Respects (view block) shape g →
        IsOperation (view block) (λ p. if shape p then g p else Err why) }
{}
