//! pg_controldata.
#![tactic(auto)]

mod shows;

pub use shows::controldata;
