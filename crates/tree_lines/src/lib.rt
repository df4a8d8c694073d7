//! Trees in memory from short lines, for rows of tests.
#![tactic(auto)]

mod fault;
mod fields;
mod lines;
mod runs;
mod words;

pub use fault::LineFault;
pub use fields::{put_fields, put_number, sum_of};
pub use lines::{put_all, put_file, tree_of};
pub use runs::{runs_of, tell_runs};
pub use words::{cut_at, plan_of, root_of};
