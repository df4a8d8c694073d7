//! What stands in a cluster at or below the folders that replay changes, as the list that a replay's mark holds.
#![tactic(auto)]

mod below;
mod laws;
mod list;
mod listing;

pub use laws::{areas_are_lists, lists_tell_areas};
pub use list::AreaList;
pub use listing::list_areas;
