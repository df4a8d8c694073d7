//! Paths, the tree of files, and sinks.
#![tactic(auto)]

mod file_fault;
mod laws;
mod marks;
mod names;
mod out_of_memory;
mod path;
mod path_fault;
mod path_laws;
mod sink;
mod tree;

pub use file_fault::FileFault;
pub use laws::{change_laws, entry_laws, folder_laws, joined_writes_law, root_laws, step_law};
pub use marks::{Marks, mark_present};
pub use names::Names;
pub use out_of_memory::OutOfMemory;
pub use path::{Path, is_part};
pub use path_fault::PathFault;
pub use path_laws::{part_laws, text_laws};
pub use sink::{Sink, SinkFailed};
pub use tree::{ChangeCall, Kind, Tree, TreeFault};
