ghost use Rattle.std.specs.Prelude.{ℕ, ◌≡◌, ◌<◌, List, Some, Ok, length};
ghost use Rattle.page_layout.specs.Lsn.{with_lsn};
ghost use Rattle.page_masks.specs.Law.{Redone, view, stamped, IsOperation};
ghost use Rattle.replay_law.specs.Effect.{FullPageImage, Init, Change};
ghost use Rattle.replay_law.specs.Premises.{IsEffect};

/// What a record leaves with its end as LSN is an effect as the law asks it: an image, a page made
/// by an operation, and a change by one that respects the mask.
pub fn stamped_is_an_effect()
    ensures image { (block end : ℕ) (page : List ℕ) → 0 < end → length page ≡ 8192 →
        IsEffect (view block) end (FullPageImage (Some (with_lsn end page))) }
    ensures init { (block end : ℕ) (operation : List ℕ → Redone) (p : List ℕ) → 0 < end →
        ((q : List ℕ) → operation p ≡ Ok q → length q ≡ 8192) →
        IsEffect (view block) end (Init (stamped end operation p)) }
    ensures change { (block end : ℕ) (operation : List ℕ → Redone) → 0 < end →
        IsOperation (view block) operation →
        IsEffect (view block) end (Change (stamped end operation)) }
{}
