//! How far a dump has come.

ghost use Rattle.std.specs.Prelude.{◌≡◌, ◌+◌, ◌<◌, ◌^◌};
ghost use Rattle.waldump_core.specs.Walk.{at_end, at_stop, behind_passed, behind_shown, nothing_shown};

use crate::dumped::Dumped;
use crate::fault::DumpFault;
use wal_base::Lsn;
use wal_records::Why;

/// How far a dump has come.
#[derive(Clone, Copy, Debug)]
pub struct Progress {
    /// How many records were shown.
    pub shown: u64,
    /// Where the last record at or past the start ends that was walked, if there was one.
    pub end: Option<Lsn>,
}

/// How a dump goes on behind a record.
#[derive(Clone, Copy, Debug)]
pub enum Turn {
    /// With the next record.
    Goes(Progress),
    /// No further.
    Stops(Dumped),
}

impl Progress {
    /// Before any record.
    pub fn new() -> Progress
        ensures { result ≡ nothing_shown }
    {
        Progress {
            shown: 0,
            end: None,
        }
    }

    /// At the stop of a dump with this start.
    pub fn at_stop(self, start: Lsn) -> Result<Turn, DumpFault>
        ensures { result ≡ at_stop start self.shown self.end }
    {
        match self.end {
            None => Err(DumpFault::NoRecordAt(start)),
            Some(end) => Ok(Turn::Stops(Dumped {
                shown: self.shown,
                end,
            })),
        }
    }

    /// Where the log ends, in a dump with this start.
    pub fn at_end(self, start: Lsn, place: Lsn, why: Why) -> DumpFault
        ensures { result ≡ at_end start self.end place.0 why }
    {
        match self.end {
            None => DumpFault::NoRecordAt(start),
            Some(_) => DumpFault::LogEnds(place, why),
        }
    }

    /// Behind a record with this end that wasn't shown.
    pub fn passed(self, end: Lsn) -> Turn
        ensures { result ≡ behind_passed self.shown end }
    {
        Turn::Goes(Progress {
            shown: self.shown,
            end: Some(end),
        })
    }

    /// Behind a record with this end that was shown, under this limit.
    pub fn shown(self, limit: u64, end: Lsn) -> Turn
        requires room { self.shown + 1 < 2 ^ 64 }
        ensures { result ≡ behind_shown limit (self.shown + 1) end }
    {
        let shown = self.shown + 1;
        if shown == limit {
            return Turn::Stops(Dumped { shown, end });
        }
        Turn::Goes(Progress {
            shown,
            end: Some(end),
        })
    }
}
