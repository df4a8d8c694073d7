//! Steps that redo on pages is made of: the words of a heap tuple's header, the page's flags and its prune xid.
#![tactic(auto)]

mod bits;
pub mod head;
pub mod tuple;
pub mod why;
