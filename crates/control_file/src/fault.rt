//! Why bytes are no control file.

use crate::field::Field;
use thiserror::Error;

/// Why bytes are no control file: the first rule that they break, in this order.
#[derive(Clone, Copy, Debug, PartialEq, Eq, Error)]
pub enum ControlFault {
    /// There aren't 8192 bytes, but this many.
    #[error("{0} bytes where a control file has 8192")]
    Size(u64),
    /// The CRC that is stored, and the one that the bytes before it have.
    #[error("CRC {0:08X} where the bytes have {1:08X}")]
    Crc(u32, u32),
    /// The version of the layout isn't 1300, but this one.
    #[error("version {0} where PostgreSQL 16 has 1300")]
    Version(u32),
    /// The version of the catalogs isn't 202307071, but this one.
    #[error("catalog version {0} where PostgreSQL 16 has 202307071")]
    Catalog(u32),
    /// The field of the least offset that breaks its rule, and its number.
    #[error("field {0} with the value {1}")]
    Shape(Field, u64),
}
