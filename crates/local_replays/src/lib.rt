//! What records do to a cluster hangs on nothing but what stands at its root and in the folders that replay changes.
#![tactic(auto)]

mod laws;

pub use laws::records_look_there;
