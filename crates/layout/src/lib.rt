//! Fixed layouts as tables: each row has a field, its offset, its value and its rule.
#![tactic(auto)]

mod laws;
mod readers;
mod row;
mod rule;
mod value;
mod writing;

pub use laws::rows_apart;
pub use readers::{i64_at, raw_at, u8_at, u16_at, u32_at, u64_at};
pub use row::{Row, first_broken};
pub use rule::Rule;
pub use value::Value;
pub use writing::{put, put_rows, write_rows};
