// A sink in memory.
ghost use Rattle.std.specs.Prelude.{◌≡◌, []};

use crate::FailPlan;
use cluster_tree::{Sink, SinkFailed};
use std::alloc::Global;

/// A sink in memory, which tells what was written. A write fails by the plan, and where there is no
/// memory for its bytes. A write that fails adds nothing.
#[derive(Drop)]
pub struct MemorySink {
    bytes: Vec<u8>,
    plan: FailPlan,
    failed: u64,
}

impl MemorySink {
    ghost use Rattle.memory_tree.specs.Fakes.{sink_plan, sink_bytes, sink_failures};

    /// An empty sink, whose writes fail by this plan.
    pub fn new(alloc: Global, fails: FailPlan) -> MemorySink
        ensures plan { sink_plan result ≡ fails }
        ensures empty { sink_bytes result ≡ [] }
        ensures unfailed { sink_failures result ≡ 0 }
    {
        MemorySink {
            bytes: Vec::new(alloc),
            plan: fails,
            failed: 0,
        }
    }

    /// What was written.
    pub fn bytes(&self) -> &[u8]
        ensures { result.now ≡ sink_bytes self.now }
    {
        &self.bytes
    }
}

impl Sink for MemorySink {
    ghost use Rattle.std.specs.Prelude.{◌≡◌, ◌≤◌, ◌++◌, true, IsTrue, IsErr, OnOk, OnErr};
    ghost use Rattle.cluster_tree.specs.Causes.{Rose};
    ghost use Rattle.cluster_tree.specs.Sink.{AddsPart};
    ghost use Rattle.memory_tree.specs.Plan.{fails_at};
    ghost use Rattle.memory_tree.specs.Fakes.{sink_plan, sink_bytes, sink_failures, TakesTurn};

    ghost tells = { true };

    ghost written = { λ s. s.bytes.items };

    ghost failed_writes = { λ s. s.failed };

    fn write(&mut self, bytes: &[u8]) -> Result<(), SinkFailed>
        ensures turn { TakesTurn (sink_plan self.old) (sink_plan self.new) }
        ensures planned { IsTrue (fails_at (sink_plan self.old) 1) → IsErr result }
        ensures kept { OnErr result (sink_bytes self.new ≡ sink_bytes self.old) }
        ensures ok { OnOk result (sink_bytes self.new ≡ sink_bytes self.old ++ bytes.now) }
        ensures err { OnErr result (AddsPart bytes.now (sink_bytes self.old) (sink_bytes self.new)) }
        ensures later { sink_failures self.old ≤ sink_failures self.new }
        ensures uncounted { OnOk result (sink_failures self.new ≡ sink_failures self.old) }
        ensures cause { OnErr result (Rose (sink_failures self.old) (sink_failures self.new)) }
    {
        if self.plan.fails_next(&mut self.failed) {
            return Err(SinkFailed);
        }
        if self.bytes.extend_from_slice(bytes).is_err() {
            self.failed = self.failed.saturating_add(1);
            return Err(SinkFailed);
        }
        Ok(())
    }
}
