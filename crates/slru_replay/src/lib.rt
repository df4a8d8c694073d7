//! Replay on the files of transaction status and of multixacts.
#![tactic(auto)]

mod area;
mod cutting;
mod multixact;
mod names;
mod pages;
mod status;

pub use area::Area;
pub use cutting::cut_before;
pub use multixact::add_multi;
pub use pages::zero_page;
pub use status::set_status;
