//! What stands at the root of a cluster: marks, the control file, histories and the log.
#![tactic(auto)]

mod all_bytes;
mod control;
mod fault;
mod history;
mod log;
mod marks;
mod paths;
mod whole_file;

pub use all_bytes::read_all;
pub use control::control_at;
pub use fault::ClusterFault;
pub use history::history_at;
pub use log::{log_path, segment_size};
pub use marks::check_marks;
pub use paths::{path_in, wal_folder};
pub use whole_file::{Found, read_whole};
