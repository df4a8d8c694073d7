// Where a program writes its lines.
ghost use Rattle.std.specs.Prelude.{◌≡◌, ℕ, ◌≤◌, ◌++◌, Bool, List, IsTrue, OnOk, OnErr};
ghost use Rattle.cluster_tree.specs.Causes.{Rose};
ghost use Rattle.cluster_tree.specs.Sink.{AddsPart};

use thiserror::Error;

/// A write that failed.
#[derive(Clone, Copy, Debug, PartialEq, Eq, Error)]
#[error("a write failed")]
pub struct SinkFailed;

/// Where a program writes its lines, as every other crate sees it.
pub trait Sink {
    /// Whether it tells what was written.
    ghost tells: { Bool };

    /// The bytes so far.
    ghost written: { Self → List ℕ };

    /// How many of its writes have failed.
    ghost failed_writes: { Self → ℕ };

    /// Adds these bytes at the end, or where it fails the first of them, maybe none.
    fn write(&mut self, bytes: &[u8]) -> Result<(), SinkFailed>
        ensures ok { IsTrue tells → OnOk result (written self.new ≡ written self.old ++ bytes.now) }
        ensures err { IsTrue tells →
            OnErr result (AddsPart bytes.now (written self.old) (written self.new)) }
        ensures later { failed_writes self.old ≤ failed_writes self.new }
        ensures uncounted { OnOk result (failed_writes self.new ≡ failed_writes self.old) }
        ensures cause { OnErr result (Rose (failed_writes self.old) (failed_writes self.new)) };
}
