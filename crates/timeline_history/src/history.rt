//! The history of a timeline.

ghost use Rattle.std.specs.Prelude.{◌≡◌, [], ◌∷◌, IfOk};
ghost use Rattle.wal_base.specs.Spans.{open_span};

use std::alloc::Global;
use std::marker::Model;
use wal_base::{OutOfMemory, Spans};

/// The timelines that lead to one, in order, and that one at the end: contracts see the list of their spans.
#[derive(Debug, Drop)]
pub struct History {
    spans: Spans,
}

impl Model for History {
    ghost use Rattle.std.specs.Prelude.{List};
    ghost use Rattle.wal_base.specs.declared.spans.Span.{Span};

    ghost Value = { List Span };

    ghost use Rattle.timeline_history.specs.History.{IsHistory};

    ghost view = { λ h. h.spans };

    ghost invariant = { λ h. IsHistory h.spans };
}

/// The history of timeline 1, which has no file. Answers `OutOfMemory` only for want of memory.
pub fn first_history(alloc: Global) -> Result<History, OutOfMemory>
    ensures ok { IfOk result (λ history. history ≡ open_span 1 record { 0 = 0 } ∷ []) }
{
    Ok(History {
        spans: Spans::one(alloc, 1)?,
    })
}

impl History {
    ghost use Rattle.timeline_history.specs.History.{IsHistory};

    /// The history with these spans.
    pub(crate) fn new(spans: Spans) -> History
        requires { IsHistory spans }
        ensures { result ≡ spans }
    {
        History { spans }
    }

    /// Its timelines: from where to where each goes, the last not ended.
    pub fn spans(&self) -> &Spans
        ensures value { result.now ≡ self.now }
        ensures history { IsHistory self.now }
    {
        &self.spans
    }
}
