//! The law of one block: states that fit one base end alike when the log is replayed.
#![tactic(auto)]

mod block;
mod effects;
mod examples;

pub use block::{anew_same, block_converges, block_ends, no_change_ends};
pub use effects::stamped_is_an_effect;
pub use examples::{
    a_change_needs_a_page, a_change_without_its_lsn_differs, a_newer_base_differs,
    a_state_that_fits_none_differs, an_unsound_page_differs, equal_ends_differ, premises_can_hold,
    zeros_on_a_page_leave_a_skipped_change,
};
