//! That a pair of clusters meets what a rewind and a replay ask of two clusters: its logs, what stands
//! at its roots, and that both grew from one state.
#![tactic(auto)]

mod bytes;
mod compared;
mod ends;
mod grew;
mod life;
mod read;
mod start;
mod survey;

pub use bytes::copy_log_is_bytes;
pub use compared::pairs_compare_the_same;
pub use ends::{copy_stays, pairs_end_the_same};
pub use grew::{pair_has_copy, pairs_follow, pairs_grew_from_one_state};
pub use life::{pair_lives, pair_says_enough};
pub use read::pair_logs_are_read;
pub use start::copy_starts;
pub use survey::{pair_has_parted, pair_is_needed};
