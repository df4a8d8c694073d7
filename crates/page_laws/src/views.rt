ghost use Rattle.std.specs.Prelude.{ℕ, ◌≡◌, ◌+◌, ◌-◌, ◌<◌, ◌≤◌, List, true, false, Ok};
ghost use Rattle.page_layout.specs.Page.{count, pd_lower, pd_special, IsFormed};
ghost use Rattle.page_layout.specs.Apart.{AreApart};
ghost use Rattle.page_layout.specs.Edits.{add_item};
ghost use Rattle.page_layout.specs.Pack.{total, packed};
ghost use Rattle.page_layout.specs.Deletes.{without_item};
ghost use Rattle.page_laws.specs.Views.{KeepsItems, GainsItem, InsertsItem, LosesItem};

/// Packing a well formed page keeps its lines' kinds and its items.
pub fn pack_keeps_items()
    ensures { (p : List ℕ) → IsFormed p → pd_lower p + total p (count p) ≤ pd_special p →
        KeepsItems p (packed p) }
{}

/// Taking an item out of a page whose items don't overlap keeps the others.
pub fn a_deletion_keeps_the_others()
    ensures { (p : List ℕ) (k : ℕ) → IsFormed p → k < count p → AreApart p →
        LosesItem p k (without_item p k) }
{}

/// Adding an item keeps the others, over an unused line or at the end, and with later lines moved
/// up.
pub fn an_addition_keeps_the_others()
    ensures over { (p bytes q : List ℕ) (place : ℕ) → IsFormed p →
        add_item p bytes place true ≡ Ok q → GainsItem p (place - 1) bytes q }
    ensures moved { (p bytes q : List ℕ) (place : ℕ) → IsFormed p →
        add_item p bytes place false ≡ Ok q → InsertsItem p (place - 1) bytes q }
{}
