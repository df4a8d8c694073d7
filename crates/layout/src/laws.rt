//! Laws about tables, each proved on a function that does nothing.

ghost use Rattle.std.specs.Prelude.{true, ℕ, ◌≡◌, List};
ghost use Rattle.layout.specs.declared.row.Row.{Row};
ghost use Rattle.layout.specs.Rows.{ascends, AreApart};

/// Rows that ascend don't overlap: of any two, the one that stands first in the table ends before
/// the other begins.
pub fn rows_apart<F>()
    ensures { (rows : List (Row F)) (end : ℕ) → ascends 0 rows end ≡ true → AreApart rows end }
{}
