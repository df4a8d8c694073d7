// A text on a sink, as a step of a run.
ghost use Rattle.std.specs.Prelude.{◌≡◌, ◌≤◌, IfErr, IsErrOf, OnErr, OnOk};
ghost use Rattle.cluster_tree.specs.Causes.{Rose};
ghost use Rattle.acts.specs.Acts.{Breaks, Puts, sunk};

use crate::Cause;
use acts::put;
use cluster_tree::Sink;

/// Puts a text on a sink, by one write. Answers `SinkFault` only where that write failed, which the
/// sink has counted; the first bytes of the text may stand there then.
pub fn tell<S: Sink>(sink: &mut S, text: &str) -> Result<(), Cause>
    ensures whole { OnOk result (Puts S.tells text.now
        (sunk (S.written sink.old) (S.failed_writes sink.old))
        (sunk (S.written sink.new) (S.failed_writes sink.new))) }
    ensures part { OnErr result (Breaks S.tells text.now
        (sunk (S.written sink.old) (S.failed_writes sink.old))
        (sunk (S.written sink.new) (S.failed_writes sink.new))) }
    ensures only { IfErr result (λ e. e ≡ Cause.SinkFault) }
    ensures later { S.failed_writes sink.old ≤ S.failed_writes sink.new }
    ensures sink_fault { IsErrOf result Cause.SinkFault →
        Rose (S.failed_writes sink.old) (S.failed_writes sink.new) }
{
    match put(sink, text) {
        Ok(()) => Ok(()),
        Err(_) => Err(Cause::SinkFault),
    }
}
