// Standard output and standard error as sinks, which tell nothing.
use cluster_tree::{Sink, SinkFailed};
use std::io::Write;

/// Where the program writes: standard output or standard error. It keeps the count of its failures.
#[derive(Drop)]
pub struct StdSink<W> {
    to: W,
    failed: u64,
}

impl<W: Write + Drop> StdSink<W> {
    /// A sink that writes on this.
    pub fn new(to: W) -> StdSink<W> {
        StdSink { to, failed: 0 }
    }
}

impl<W: Write + Drop> Sink for StdSink<W> {
    ghost use Rattle.std.specs.Prelude.{false, []};

    ghost tells = { false };

    ghost written = { λ s. [] };

    ghost failed_writes = { λ s. s.failed };

    fn write(&mut self, bytes: &[u8]) -> Result<(), SinkFailed> {
        match self.to.write_all(bytes) {
            Ok(()) => Ok(()),
            Err(_) => {
                self.failed = self.failed.saturating_add(1);
                Err(SinkFailed)
            }
        }
    }
}
