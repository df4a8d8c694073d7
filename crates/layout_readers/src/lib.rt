//! What the readers of layouts share: when a layout is whole, and values in a row, read and spelled.
#![tactic(auto)]

mod laws;

pub use laws::{rows_are_read, rows_are_spelled};
