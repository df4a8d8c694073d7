//! What is wrong with clusters, as causes of a run.
#![tactic(auto)]

mod of_cluster;
mod of_walk;
mod performed;
mod rewind;

pub use of_cluster::cluster_cause;
pub use of_walk::{file_cause, walk_cause};
pub use performed::perform_cause;
pub use rewind::rewind_cause;
