//! A rewind: what it has to do, planned, and carried out.
#![tactic(auto)]

mod anew;
mod faults;
mod laws;
mod outcome;
mod pairs;
mod performing;
mod planning;
mod rewinding;
mod sums;
mod walks;

pub use anew::plan_anew;
pub use laws::{marks_are_refused, stops_are_told};
pub use marked_runs::PerformFault;
pub use outcome::{Plan, Planned, RewindDone};
pub use performing::perform;
pub use planning::plan;
pub use rewind_survey::{Divergence, RewindFault, Told};
pub use rewinding::rewind;
pub use sums::sum_at;
