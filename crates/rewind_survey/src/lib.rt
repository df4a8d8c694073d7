//! What a rewind has to begin from: whether two clusters need one, where they parted, and which blocks
//! the target's log touched since.
#![tactic(auto)]

mod answer;
mod fault;
mod fitness;
mod outcome;
mod parting;
mod roots;
mod walks;

pub use answer::survey;
pub use fault::RewindFault;
pub use outcome::{Parted, Surveyed, Told};
pub use roots::control_at;
pub use timeline_history::Divergence;
