//! The control file of a cluster.
#![tactic(auto)]

mod calendar;
mod checkpoint;
mod control;
mod fault;
mod field;
mod format;
mod laws;
mod line;
mod names;
mod reading;
mod rows;
mod text;
mod time;
mod writing;

pub use checkpoint::Checkpoint;
pub use control::Control;
pub use fault::ControlFault;
pub use field::Field;
pub use laws::fields_apart;
pub use reading::{read_checkpoint, read_control};
pub use text::control_text;
pub use writing::{write_checkpoint, write_control};
