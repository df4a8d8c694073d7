//! Redo of heap records on pages: what a record of Heap or Heap2 does to the page of a block of it.
#![tactic(auto)]

mod added;
mod lines;
mod operation;
mod redo;
mod tuples;

pub use operation::{acts_on, makes_anew};
pub use redo::redo_heap;
