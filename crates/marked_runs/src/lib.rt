//! Changes that are carried out one after another.
#![tactic(auto)]

mod faults;
mod laws;
mod marks;
mod steps;
mod zeros;

pub use faults::{PerformFault, StepFault, about};
pub use laws::{run_laws, stop_laws};
pub use marks::{begin, finish, write_new};
pub use steps::{cut_file, make_folder, overwrite, remove_entry};
pub use zeros::{fill_zeros, write_padded};
