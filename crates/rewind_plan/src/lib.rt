//! The plan of a rewind: which changes it makes, and what they leave.
#![tactic(auto)]

mod checks;
mod files;
mod laws;
mod making;
mod place;
mod roots;
mod runs;
mod steps;

pub use checks::{first_difference, first_lacking};
pub use laws::{
    plans_are_not_refused, plans_find_what_they_read, plans_leave_the_mark,
    plans_leave_the_rewound_tree, walks_are_sides,
};
pub use making::plan_of;
pub use roots::Clusters;
pub use steps::steps_of;
