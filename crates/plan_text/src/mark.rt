// What the bytes of a rewind's mark tell.
ghost use Rattle.std.specs.Prelude.{◌≡◌};
ghost use Rattle.plan_text.specs.Mark.{mark_told};

/// What the bytes of a rewind's mark tell.
#[derive(Clone, Copy)]
pub enum MarkText {
    /// It was left by a version that stored no plan.
    Version1,
    /// Its plan isn't whole: no other change was made yet.
    NotComplete,
    /// Its plan stands from byte 14 on.
    Complete,
}

/// What the bytes of a rewind's mark tell: of version 1 where they are `pg_rewind 1` and a newline;
/// complete where they begin with `pg_rewind 2` and a newline, byte 12 is `+`, and they are more than
/// 14.
pub fn mark_text(bytes: &[u8]) -> MarkText
    ensures value { result ≡ mark_told bytes.now }
{
    if bytes == b"pg_rewind 1\n".as_slice() {
        MarkText::Version1
    } else if bytes.len() > 14 && bytes.starts_with(b"pg_rewind 2\n+") {
        MarkText::Complete
    } else {
        MarkText::NotComplete
    }
}
