//! Two clusters side by side: whether they are the same under the masks, and else where they differ
//! first.
#![tactic(auto)]

mod blocks;
mod bytes;
mod clusters_compared;
mod compared;
mod fault;
mod laws;
mod left_out;
mod pair_compared;
mod places;
mod reading;

pub use clusters_compared::compare_clusters;
pub use compared::Compared;
pub use fault::CompareFault;
pub use laws::compared_exactly;
