//! The sizes, places and numbers of the format.

ghost use Rattle.std.specs.Prelude.{◌≡◌, ◌≤◌, length, take};
ghost use Rattle.wal_base.specs.Crc.{crc32c};

use wal_base::Crc32c;

/// The bytes of a control file.
pub const FILE_SIZE: usize = 8192;

/// The offset of the CRC, which is that of the bytes before it.
pub const CRC_AT: usize = 288;

/// The version of the control file's layout in PostgreSQL 16.
pub const VERSION: u32 = 1300;

/// The version of the system catalogs in PostgreSQL 16.
pub const CATALOG: u32 = 202307071;

/// The offset of the checkpoint copy.
pub const CHECKPOINT_AT: usize = 40;

/// The bytes of a checkpoint copy.
pub const CHECKPOINT_SIZE: usize = 88;

/// The CRC-32C of the bytes before the CRC.
pub fn checksum(bytes: &[u8]) -> u32
    requires { 288 ≤ length bytes.now }
    ensures { result ≡ crc32c (take 288 bytes.now) }
{
    let mut crc = Crc32c::new();
    crc.add(&bytes[..CRC_AT]);
    crc.value()
}
