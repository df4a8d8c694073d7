//! pg_walcompare.
#![tactic(auto)]

mod causes;
mod compares;

pub use compares::walcompare;
