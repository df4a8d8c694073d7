//! The bytes of a file copied into another piece by piece, and the changing calls that nothing is to
//! refuse.
#![tactic(auto)]

mod calls;
mod pieces;

pub use calls::{cut, make_file, make_folder, write};
pub use pieces::copy_bytes;
