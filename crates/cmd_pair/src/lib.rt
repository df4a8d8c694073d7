//! pair.
#![tactic(auto)]

mod causes;
mod compares;
mod counts;
mod line;
mod makes;
mod replays;
mod rewinds;
mod room;
mod trial;
mod tries;

pub use tries::pair;
