//! The rows of a table.

ghost use Rattle.std.specs.Prelude.{true, ℕ, ◌≡◌, ◌↔◌, IsNone, IfSome};
ghost use Rattle.std.specs.List.{AllByRecursion};
ghost use Rattle.layout.specs.declared.value.Value.TheVariants.{Byte, Half, Word, Long, Signed, Raw};
ghost use Rattle.layout.specs.Rows.{row, RowFits, ascends, first_broken, Holds, IsFirstBroken};

use crate::rule::Rule;
use crate::value::Value;

/// A field, its offset, its value and its rule.
#[derive(Clone, Copy, Debug)]
pub struct Row<F> {
    /// Which field it is.
    pub field: F,
    /// The offset of its first byte, from the front of the layout.
    pub at: usize,
    /// What it holds.
    pub value: Value,
    /// What it may hold.
    pub rule: Rule,
}

impl<F: Copy> Row<F> {
    /// The row of a field of one byte.
    pub fn byte(field: F, at: usize, n: u8, rule: Rule) -> Row<F>
        ensures value { result ≡ row field at (Byte n) rule }
        ensures fits { RowFits result }
    {
        let value = Value::Byte(n);
        Row {
            field,
            at,
            value,
            rule,
        }
    }

    /// The row of a field of two bytes.
    pub fn half(field: F, at: usize, n: u16, rule: Rule) -> Row<F>
        ensures value { result ≡ row field at (Half n) rule }
        ensures fits { RowFits result }
    {
        let value = Value::Half(n);
        Row {
            field,
            at,
            value,
            rule,
        }
    }

    /// The row of a field of four bytes.
    pub fn word(field: F, at: usize, n: u32, rule: Rule) -> Row<F>
        ensures value { result ≡ row field at (Word n) rule }
        ensures fits { RowFits result }
    {
        let value = Value::Word(n);
        Row {
            field,
            at,
            value,
            rule,
        }
    }

    /// The row of a field of eight bytes.
    pub fn long(field: F, at: usize, n: u64, rule: Rule) -> Row<F>
        ensures value { result ≡ row field at (Long n) rule }
        ensures fits { RowFits result }
    {
        let value = Value::Long(n);
        Row {
            field,
            at,
            value,
            rule,
        }
    }

    /// The row of a signed field of eight bytes.
    pub fn signed(field: F, at: usize, n: i64, rule: Rule) -> Row<F>
        ensures value { result ≡ row field at (Signed n) rule }
        ensures fits { RowFits result }
    {
        let value = Value::Signed(n);
        Row {
            field,
            at,
            value,
            rule,
        }
    }

    /// The row of a field of 32 bytes that are no number.
    pub fn raw(field: F, at: usize, bytes: [u8; 32], rule: Rule) -> Row<F>
        ensures value { result ≡ row field at (Raw bytes) rule }
        ensures fits { RowFits result }
    {
        let value = Value::Raw(bytes);
        Row {
            field,
            at,
            value,
            rule,
        }
    }
}

/// The first of these rows whose number its rule doesn't allow, or `None` where each is allowed.
pub fn first_broken<F: Copy>(rows: &[Row<F>]) -> Option<Row<F>>
    ensures value { result ≡ first_broken rows.now }
    ensures none { IsNone result ↔ AllByRecursion Holds rows.now }
    // where the rows ascend, no row of a lesser offset breaks its rule
    ensures least { (end : ℕ) → ascends 0 rows.now end ≡ true →
        IfSome result (λ row. IsFirstBroken row rows.now) }
{
    find_broken(rows)
}

#[tactic(auto, unfolding(crate::specs::Rows::first_broken))]
fn find_broken<F: Copy>(rows: &[Row<F>]) -> Option<Row<F>>
    ensures { result ≡ first_broken rows.now }
{
    rows.iter()
        .copied()
        .find(|row| !row.rule.allows(row.value.number()))
}
