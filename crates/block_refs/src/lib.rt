//! The parts of a record of the log: block references, their images and bytes, the main bytes.
#![tactic(auto)]

mod block_ref;
mod fault;
mod fragment;
mod header;
mod image;
mod laws;
mod names;
mod page;
mod parts;
mod placed;
mod reading;
mod split;

pub use block_ref::{BlockRef, ImageRef};
pub use fault::PartsFault;
pub use laws::{
    blocks_are_ordered, bodies_have_one_reading, ids_rise, parts_fill_a_body,
    written_bodies_are_read_again,
};
pub use names::{BlockName, Fork, RelName};
pub use page::image_page;
pub use parts::Parts;
pub use split::{split_into, split_record};
