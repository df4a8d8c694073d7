//! The files of relations: where they lie, how they are named, and which file a name is of.
#![tactic(auto)]

mod file_name;
mod laws;
mod paths;
mod reading;

pub use file_name::FileName;
pub use laws::names_are_files;
pub use paths::{database_folder, relation_file, relation_folder};
