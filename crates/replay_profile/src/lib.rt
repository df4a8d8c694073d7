//! Which records replay takes, judged before anything is changed, also where a layout is cut.
#![tactic(auto)]

mod fault;
mod fields;
mod laws;
mod names;
mod operations;
mod profile;
mod references;
mod values;

pub use fault::ProfileFault;
pub use laws::logs_are_judged_in_order;
pub use names::{is_known_database, is_known_rel};
pub use profile::{is_in_profile, is_short, judge};
