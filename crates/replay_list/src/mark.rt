// What the bytes of a replay's mark tell.
ghost use Rattle.std.specs.Prelude.{◌≡◌};
ghost use Rattle.replay_list.specs.Mark.{is_complete, mark_told};

/// What the bytes of a replay's mark tell.
#[derive(Clone, Copy)]
pub enum ReplayMark {
    /// It was left by a version that stored no list.
    Version1,
    /// Its list isn't whole: no other change was made yet.
    NotComplete,
    /// Its list stands from byte 18 on, and the replay hasn't ended.
    Complete,
    /// Its list stands from byte 18 on, and the replay has ended.
    Ended,
}

/// Whether it holds a list.
fn is_complete(bytes: &[u8]) -> bool
    ensures { result ≡ is_complete bytes.now }
{
    bytes.len() > 18 && bytes.starts_with(b"pg_walreplay 2\n") && bytes[15] == b'+'
}

/// What the bytes of a replay's mark tell: of version 1 where they are `pg_walreplay 1` and a newline; complete where
/// they begin with `pg_walreplay 2` and a newline, byte 15 is `+`, and they are more than 18; and ended where byte 16 is
/// `+` too.
pub fn replay_mark(bytes: &[u8]) -> ReplayMark
    ensures value { result ≡ mark_told bytes.now }
{
    if bytes == b"pg_walreplay 1\n".as_slice() {
        ReplayMark::Version1
    } else if !is_complete(bytes) {
        ReplayMark::NotComplete
    } else if bytes[16] == b'+' {
        ReplayMark::Ended
    } else {
        ReplayMark::Complete
    }
}
