//! Flags of records.

ghost use Rattle.std.specs.Prelude.{ℕ, ◌≡◌, ◌<◌};
ghost use Rattle.redo_steps.specs.Bits.{has_bit};

/// `XLH_INSERT_ALL_VISIBLE_CLEARED`, `XLH_DELETE_ALL_VISIBLE_CLEARED`.
pub const ALL_VISIBLE_CLEARED: u8 = 1;

/// `XLH_DELETE_IS_SUPER`.
pub const DELETE_IS_SUPER: u8 = 8;

/// `XLH_DELETE_IS_PARTITION_MOVE`.
pub const DELETE_IS_PARTITION_MOVE: u8 = 0x10;

/// `XLH_INSERT_ALL_FROZEN_SET`.
pub const INSERT_ALL_FROZEN_SET: u8 = 0x20;

/// `XLHL_XMAX_IS_MULTI`.
pub const XMAX_IS_MULTI: u8 = 1;

/// `XLHL_XMAX_LOCK_ONLY`.
pub const XMAX_LOCK_ONLY: u8 = 2;

/// `XLHL_XMAX_EXCL_LOCK`.
pub const XMAX_EXCL_LOCK: u8 = 4;

/// `XLHL_XMAX_KEYSHR_LOCK`.
pub const XMAX_KEYSHR_LOCK: u8 = 8;

/// Whether the bit of this weight is set.
pub fn has_bit(bits: u8, weight: u8) -> bool
    requires { 0 < weight }
    ensures { result ≡ has_bit weight bits }
{
    bits / weight % 2 == 1
}
