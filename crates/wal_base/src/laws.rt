//! Laws: what holds of the definitions, whatever calls them.

ghost use Rattle.std.specs.Prelude.{◌≡◌, ℕ, ◌<◌, ◌≤◌, ◌^◌, ◌↔◌, Some, List, decimal};
ghost use Rattle.wal_base.specs.declared.lsn.Lsn.{Lsn};
ghost use Rattle.wal_base.specs.declared.seg_size.SegSize.{SegSize};
ghost use Rattle.wal_base.specs.declared.segment.Segment.{Segment};
ghost use Rattle.wal_base.specs.Decimal.{decimal_number};
ghost use Rattle.wal_base.specs.Hex.{hex_digits, upper_hex};
ghost use Rattle.wal_base.specs.Lsn.{lsn_of, lsn_text, lsn_padded, NamesLsn};
ghost use Rattle.wal_base.specs.Segment.{segment_named, NamesSegment};

/// A text is read as a decimal number exactly where it is what `{}` writes of that number.
pub fn decimals_are_named()
    ensures { (limit n : ℕ) (text : List ℕ) → limit ≤ 2 ^ 64 →
        (decimal_number limit text ≡ Some n) ↔ ((n < limit) × (text ≡ decimal n)) }
{}

/// A number that has no more hexadecimal digits than are asked for is shown as just so many.
pub fn padded_digits_are_digits()
    ensures { (width n : ℕ) → 0 < width → n < 16 ^ width → n < 2 ^ 64 →
        upper_hex width n ≡ hex_digits width n }
{}

/// A text is read as a position exactly where it names it, and both texts of a position name it.
pub fn positions_are_named()
    ensures named { (text : List ℕ) (at : Lsn) → (lsn_of text ≡ Some at) ↔ NamesLsn text at }
    ensures shown { (at : ℕ) → at < 2 ^ 64 → lsn_of (lsn_text at) ≡ Some record { 0 = at } }
    ensures padded { (at : ℕ) → at < 2 ^ 64 → lsn_of (lsn_padded at) ≡ Some record { 0 = at } }
{}

/// A text is read as a segment exactly where it is that segment's name.
pub fn segments_are_named()
    ensures { (size : SegSize) (text : List ℕ) (segment : Segment) →
        (segment_named size text ≡ Some segment) ↔ NamesSegment size text segment }
{}
