//! What lies below the roots of two clusters, path by path, and what a rewind does there.
#![tactic(auto)]

mod action;
mod entries;
mod entry;
mod excluding;
mod fault;
mod laws;
mod pair;
mod place;
mod relation;
mod see;
mod waiting;
mod walking;

pub use action::{Action, decide};
pub use entries::Entries;
pub use entry::{Entry, EntryKind};
pub use excluding::excluded;
pub use fault::WalkFault;
pub use laws::{
    excluded_below, paths_are_of_either, relation_files_lie_there, walks_are_in_order,
    walks_tell_all,
};
pub use pair::{Pair, pair_up};
pub use relation::is_relation_file;
pub use walking::walk;
