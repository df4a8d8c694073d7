//! What a replay begins from: what stands at a cluster's root, and its whole log, checked before
//! anything is changed.
#![tactic(auto)]

mod checked;
mod checking;
mod fault;
mod fitness;
mod label;
mod roots;
mod scan;

pub use checked::Checked;
pub use checking::check;
pub use fault::ReplayFault;
