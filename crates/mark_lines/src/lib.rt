//! The words of the lines in which a mark's text is written: written, and read again.
#![tactic(auto)]

mod lines;
mod paths;
mod words;
mod writing;

pub use lines::{end_of, first_line, pieces_of, words_of};
pub use paths::way_in;
pub use words::bytes_in;
pub use writing::{add_pathed, add_sized, path_word, way_of};
