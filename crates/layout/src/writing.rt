//! Writing values at their offsets.

ghost use Rattle.std.specs.Prelude.{true, ◌≡◌, ◌≤◌, ◌+◌, length, replicate};
ghost use Rattle.std.specs.List.{All, AllByRecursion};
ghost use Rattle.layout.specs.Rows.{RowFits, Says, ascends, end_of};
ghost use Rattle.layout.specs.Splice.{splice};
ghost use Rattle.layout.specs.Values.{width};
ghost use Rattle.layout.specs.Writing.{laid, value_bytes};

use crate::row::Row;
use crate::value::Value;

// Writes bytes at an offset.
#[tactic(auto, unfolding(crate::specs::Splice::splice))]
fn put_bytes(into: &mut [u8], at: usize, bytes: &[u8])
    requires { at + length bytes.now ≤ length into.old }
    ensures { into.new ≡ splice into.old at bytes.now }
{
    into[at..at + bytes.len()].copy_from_slice(bytes);
}

/// Writes a value at an offset, over what stood there.
#[tactic(auto, unfolding(crate::specs::Writing::value_bytes))]
pub fn put(into: &mut [u8], at: usize, value: Value)
    requires { at + width value ≤ length into.old }
    ensures { into.new ≡ splice into.old at (value_bytes value) }
{
    match value {
        Value::Byte(n) => put_bytes(into, at, &[n]),
        Value::Half(n) => put_bytes(into, at, &n.to_le_bytes()),
        Value::Word(n) => put_bytes(into, at, &n.to_le_bytes()),
        Value::Long(n) => put_bytes(into, at, &n.to_le_bytes()),
        Value::Signed(n) => put_bytes(into, at, &n.to_le_bytes()),
        Value::Raw(bytes) => put_bytes(into, at, &bytes),
    }
}

/// Writes the values of the rows, each at its offset, over what stood there.
pub fn put_rows<F: Copy>(into: &mut [u8], rows: &[Row<F>])
    requires { All (λ row. end_of row ≤ length into.old) rows.now }
    ensures { into.new ≡ laid rows.now into.old }
{
    for row in rows {
        put(into, row.at, row.value);
    }
}

/// Writes zeros, and over them the values of the rows, each at its offset.
pub fn write_rows<F: Copy>(into: &mut [u8], rows: &[Row<F>])
    requires order { ascends 0 rows.now (length into.old) ≡ true }
    requires fits { AllByRecursion RowFits rows.now }
    ensures bytes { into.new ≡ laid rows.now (replicate (length into.old) 0) }
    // each value is read again where it was written
    ensures said { Says rows.now into.new }
{
    into.fill(0);
    put_rows(into, rows);
}
