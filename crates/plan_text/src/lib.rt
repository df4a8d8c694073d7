//! The plan of a rewind as text, which its mark holds: written, and read again.
#![tactic(auto)]

mod fault;
mod laws;
mod mark;
mod paths;
mod reading;
mod saying;
mod steps;
mod stored;
mod turns;
mod words;
mod writing;

pub use fault::StoredFault;
pub use laws::{plan_texts_are_read, read_plans_are_said};
pub use mark::{MarkText, mark_text};
pub use reading::stored_plan;
pub use stored::StoredPlan;
pub use writing::plan_text;
