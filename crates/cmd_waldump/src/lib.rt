//! pg_waldump.
#![tactic(auto)]

mod asked;
mod causes;
mod managers;
mod shows;

pub use asked::waldump;
