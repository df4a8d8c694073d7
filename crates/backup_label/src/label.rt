// The text of a label.
ghost use Rattle.std.specs.Prelude.{◌≡◌, IfOk, Ok};
ghost use Rattle.backup_label.specs.Text.{label_text, places_of};
ghost use Rattle.backup_label.specs.Reading.{label_of};

use crate::time::time_text;
use std::alloc::Global;
use wal_base::{Lsn, OutOfMemory, SegSize, Segment, Text};

/// What the label of a rewind says.
#[derive(Clone, Copy, Debug)]
pub struct Label {
    /// Where replay starts: the redo of the last common checkpoint.
    pub start: Lsn,
    /// The timeline of that checkpoint's record.
    pub tli: u32,
    /// The size of the log's segments.
    pub size: SegSize,
    /// Where that record starts.
    pub checkpoint: Lsn,
    /// The time of the rewind, in seconds since 1970.
    pub time: i64,
}

impl Label {
    /// Its five lines: the start and the name of the segment file that holds it, the checkpoint, the
    /// method, the kind of server that it was taken from, and the time at UTC, which outside the
    /// years 1 to 9999 is the number of seconds alone. Answers `OutOfMemory` only for want of memory.
    pub fn text(self, alloc: Global) -> Result<Text, OutOfMemory>
        ensures value { IfOk result (λ text. text ≡ label_text self) }
        ensures again { IfOk result (λ text. label_of text ≡ Ok (places_of self)) }
    {
        let Label {
            start,
            tli,
            size,
            checkpoint,
            time,
        } = self;
        let file = Segment::of(tli, start, size).name(alloc)?;
        let file = file.as_str();
        let time = time_text(alloc, time)?;
        let time = time.as_str();
        let text = format!(in alloc;
            "START WAL LOCATION: {start} (file {file})\nCHECKPOINT LOCATION: {checkpoint}\n\
            BACKUP METHOD: pg_rewind\nBACKUP FROM: standby\nSTART TIME: {time}\n"
        )?;
        Ok(Text::from(text))
    }
}
