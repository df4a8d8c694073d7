//! Laws: what holds of values in a row, whatever reads them.

ghost use Rattle.std.specs.Prelude.{◌≡◌, ◌≤◌, ◌+◌, ◌++◌, ℕ, List, length, take, drop};
ghost use Rattle.layout.specs.declared.value.Value.{Value};
ghost use Rattle.layout_readers.specs.Rows.{AllFit, AreBytes, StandFrom, row_bytes, row_width};

/// Values that are spelled one behind another, wherever that is, are read there.
#[tactic(auto, using(crate::proofs::RowLemmas::row_read))]
pub fn rows_are_read()
    ensures { (values : List Value) (front behind : List ℕ) → AllFit values →
        StandFrom values (length front) (front ++ (row_bytes values ++ behind)) }
{}

/// Values that are read one behind another off bytes fit their bytes, and are spelled as these.
pub fn rows_are_spelled()
    ensures fit { (values : List Value) (at : ℕ) (bytes : List ℕ) → AreBytes bytes →
        at + row_width values ≤ length bytes → StandFrom values at bytes → AllFit values }
    ensures spelled { (values : List Value) (at : ℕ) (bytes : List ℕ) → AreBytes bytes →
        at + row_width values ≤ length bytes → StandFrom values at bytes →
        row_bytes values ≡ take (row_width values) (drop at bytes) }
{}
