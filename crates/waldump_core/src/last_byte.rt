//! Which records lie before the stop of a dump.

ghost use Rattle.std.specs.Prelude.{◌≡◌};
ghost use Rattle.wal_base.specs.Segment.{bytes_of};
ghost use Rattle.waldump_core.specs.Dump.{is_before};

use wal_base::{Lsn, SegSize};
use wal_records::Record;

/// Whether a record's last byte lies before the stop, where there is one.
pub fn is_before(size: SegSize, stop: Option<Lsn>, rec: &Record) -> bool
    ensures { result ≡ is_before (bytes_of size) stop rec.now }
{
    let Some(stop) = stop else {
        return true;
    };
    match rec.behind(size) {
        Some(behind) => behind.0 <= stop.0,
        None => false,
    }
}
