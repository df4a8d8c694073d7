//! Laws of logs that are written.

ghost use Rattle.wal_records.specs.Again.{RecordsAreReadAgain, PagesAreReadAgain, FurtherPagesAreReadAgain, WrittenRecordIsRead, WrittenRecordsAreRead};
ghost use Rattle.wal_records.specs.Sound.{EndsAtPage, EndsInPage, BegunIsSound, AppendedStands, StaysSound, WrittenLogIsRead};
ghost use Rattle.wal_records.specs.Stored.{LogIsReadBack};

/// From the bytes of a record that was written, its header, its body and its checksum are read
/// again; and a page that a written header begins is valid, and says what was written.
pub fn headers_are_read_again()
    ensures records { RecordsAreReadAgain }
    ensures pages { PagesAreReadAgain }
{}

/// Where the further pages of a record were written, over files that hold them, they are read as
/// its further pages, and carry its bytes.
pub fn further_pages_are_read_again()
    ensures { FurtherPagesAreReadAgain }
{}

/// A record that was written at a place is read there, over files that hold the bytes of its log.
pub fn written_record_is_read()
    ensures { WrittenRecordIsRead }
{}

/// Records that were written one after another are read one after another: the log from where they
/// begin is these records, with the header and the body that each was given, and then the log from
/// where they end.
pub fn written_records_are_read()
    ensures { WrittenRecordsAreRead }
{}

/// Where the bytes of a log end, over files that go on in zeros, reading ends: at a page's end for
/// want of a page, and within a page for want of a record's length.
pub fn written_end_is_read()
    ensures page { EndsAtPage }
    ensures length { EndsInPage }
{}

/// A log of no records is sound; in the bytes of a sound log that goes on with a record this stands
/// at its place; and the log stays sound.
pub fn appended_record_stands()
    ensures begun { BegunIsSound }
    ensures stands { AppendedStands }
    ensures stays { StaysSound }
{}

/// The log of some records is read again: over files that hold its bytes the valid log from its
/// start is these records, and then the log from where they end.
pub fn written_log_is_read()
    ensures { WrittenLogIsRead }
{}

/// What a writer wrote is read back from the segment files of a tree that have its bytes, and then
/// zeros: the valid log from its start is the records that were appended, each with what it was
/// given, and ends where the writer is: for want of a page, where the last record ends at a page's
/// end, and else for want of a record's length.
pub fn written_log_is_read_back()
    ensures { LogIsReadBack }
{}
