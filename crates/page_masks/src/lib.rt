//! Pages as they are compared: what differs between two equal pages is masked.
#![tactic(auto)]

mod btree;
mod heap;
pub mod kind;
mod laws;
pub mod masking;
mod others;

pub use kind::{PageKind, kind_of};
pub use laws::{composes, mask_shows, mask_twice, masks_without_lsn, stamps};
pub use masking::{mask, same_page};
