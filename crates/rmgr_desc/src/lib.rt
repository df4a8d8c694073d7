//! The names of records of the log, and the texts of what they say.
#![tactic(auto)]

mod btree;
mod checkpoint;
mod clog;
mod database;
mod description;
mod heap;
mod heap2;
mod laws;
mod managers;
mod multixact;
mod names;
mod naming;
mod operations;
mod pieces;
mod relmap;
mod sequence;
mod standby;
mod storage;
mod transaction;
mod xlog;

pub use description::{add_description, describe};
pub use laws::cut_layouts_are_short;
pub use managers::{add_manager_name, manager_name};
pub use naming::{a_name_is_one_manager, manager_named};
pub use operations::{add_operation_name, operation_name};
