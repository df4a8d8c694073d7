//! What stood in a cluster before a replay, as the list that the replay's mark holds: written, and read again.
#![tactic(auto)]

mod areas;
mod fault;
mod front;
mod laws;
mod listed;
mod mark;
mod reading;
mod saying;
mod writing;

pub use fault::ListFault;
pub use laws::{list_texts_are_read, read_lists_are_listed};
pub use listed::Listed;
pub use mark::{ReplayMark, replay_mark};
pub use reading::stored_list;
pub use writing::list_text;
