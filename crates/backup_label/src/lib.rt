//! The label that a rewind leaves for the recovery after it: written, and read again.
#![tactic(auto)]

mod calendar;
mod fault;
mod label;
mod pieces;
mod reading;
mod time;

pub use fault::LabelFault;
pub use label::Label;
pub use reading::{LabelPlaces, read_label};
