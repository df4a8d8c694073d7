//! A replay that can be started again leaves what pg_walreplay leaves without --restart.
#![tactic(auto)]

mod laws;

pub use laws::{
    begun_has_kinds, cleared_is_cleared, kinds_stay, little_is_in_the_way, one_is_plain,
    refused_plainly, run_is_plain,
};
