// A text on a sink.
ghost use Rattle.std.specs.Prelude.{◌≡◌, ◌≢◌, ◌≤◌, [], OnErr, OnOk, string_bytes};
ghost use Rattle.cluster_tree.specs.Causes.{Rose};
ghost use Rattle.acts.specs.Acts.{Breaks, Puts, sunk};
ghost use Rattle.acts.specs.Texts.{Flushes};

use cluster_tree::{Sink, SinkFailed};

/// Puts a text on a sink, by one write. Answers `SinkFailed` only where that write failed, which the
/// sink has counted; the first bytes of the text may stand there then.
pub fn put<S: Sink>(sink: &mut S, text: &str) -> Result<(), SinkFailed>
    ensures whole { OnOk result (Puts S.tells text.now
        (sunk (S.written sink.old) (S.failed_writes sink.old))
        (sunk (S.written sink.new) (S.failed_writes sink.new))) }
    ensures part { OnErr result (Breaks S.tells text.now
        (sunk (S.written sink.old) (S.failed_writes sink.old))
        (sunk (S.written sink.new) (S.failed_writes sink.new))) }
    ensures later { S.failed_writes sink.old ≤ S.failed_writes sink.new }
    ensures cause { OnErr result (Rose (S.failed_writes sink.old) (S.failed_writes sink.new)) }
{
    sink.write(text.as_bytes())
}

/// Puts what was gathered on a sink, and empties it. Nothing is written where nothing was gathered,
/// so no empty write fails. Answers `SinkFailed` as `put` does.
pub fn flush<S: Sink>(sink: &mut S, text: &mut String) -> Result<(), SinkFailed>
    ensures whole { OnOk result (Flushes S.tells (string_bytes text.old)
        (sunk (S.written sink.old) (S.failed_writes sink.old))
        (sunk (S.written sink.new) (S.failed_writes sink.new))) }
    ensures cleared { OnOk result (string_bytes text.new ≡ []) }
    ensures part { OnErr result (Breaks S.tells (string_bytes text.old)
        (sunk (S.written sink.old) (S.failed_writes sink.old))
        (sunk (S.written sink.new) (S.failed_writes sink.new))) }
    ensures gathered { OnErr result (string_bytes text.old ≢ []) }
    ensures later { S.failed_writes sink.old ≤ S.failed_writes sink.new }
    ensures cause { OnErr result (Rose (S.failed_writes sink.old) (S.failed_writes sink.new)) }
{
    if text.is_empty() {
        return Ok(());
    }
    put(sink, text.as_str())?;
    text.clear();
    Ok(())
}
