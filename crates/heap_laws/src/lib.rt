//! Redo of heap records can't tell pages with equal masks, as laws without code.
#![tactic(auto)]

mod laws;

pub use laws::{
    edits_respect, empty_lines_respect, heap_mask_law, put_respects, sound_heaps_are_shown,
    trimmed_operations,
};
