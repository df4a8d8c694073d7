//! Edits of files in a tree: the few primitives by which replay changes files.
#![tactic(auto)]

mod asking;
mod calls;
mod clearing;
mod editing;
mod laws;
mod reading;
mod removing;
mod shortening;
mod ways;

pub use asking::{file_size, is_folder, name_at, names_of};
pub use clearing::remove_tree;
pub use editing::{ensure_file, lay};
pub use laws::{alike_laws, edit_laws, own_laws, sparing_laws};
pub use reading::read_or_zeros;
pub use removing::remove_file;
pub use shortening::shorten;
pub use ways::make_way;
