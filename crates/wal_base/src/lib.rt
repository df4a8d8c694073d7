//! Texts, log positions and CRC-32C: what every crate here stands on.
#![tactic(auto)]

mod crc;
mod decimal;
mod digits;
mod folding;
mod hex;
mod laws;
mod lsn;
mod memory;
mod plain;
mod seg_size;
mod segment;
mod slices;
mod spans;
mod tables;
mod text;

pub use crc::Crc32c;
pub use decimal::{decimal_u32, decimal_u64};
pub use digits::{HexByte, HexWord, eight_digits, hex_digit};
pub use laws::{
    decimals_are_named, padded_digits_are_digits, positions_are_named, segments_are_named,
};
pub use lsn::Lsn;
pub use memory::OutOfMemory;
pub use plain::plain_crc32c;
pub use seg_size::SegSize;
pub use segment::{Segment, is_long_name};
pub use spans::{Span, Spans};
pub use text::Text;
