//! The line of a cause on standard error.
#![tactic(auto)]

mod fixed;
mod lines;
mod replay;
mod unfit;

pub use fixed::{Fixed, fixed_line};
pub use lines::{Line, line_of};
