//! What records of the server's own managers do to blocks, and their redo on a page.
#![tactic(auto)]

mod acts;
mod laws;
mod page;

pub use acts::{Act, act_on};
pub use laws::{acts_are_effects, extensions_keep_rules};
pub use page::redo;
