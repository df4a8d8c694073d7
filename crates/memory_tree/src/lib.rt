//! A tree of files and a sink in memory, and a tree whose calls fail by a plan.
#![tactic(auto)]

mod children;
mod copies;
mod edits;
mod failing;
mod filling;
mod log;
mod memory;
mod memory_sink;
mod nodes;
mod plan;

pub use failing::FailingTree;
pub use memory::MemoryTree;
pub use memory_sink::MemorySink;
pub use plan::FailPlan;
