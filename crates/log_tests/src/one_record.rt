//! Logs of one record.
use crate::logs::size;
use crate::records::cursor_at;
use crate::written::{short_tree, writer_of};
use std::process::Abort;
use wal_records::RecordCursor;

/// Where the record starts.
const START: u64 = 0x10_0028;

/// A cursor that has read the record of a manager, an `info` and a body.
pub(crate) fn cursor_over<R: AllocGlobal + Abort>(
    rt: &R,
    manager: u8,
    info: u8,
    body: &[u8],
) -> RecordCursor {
    let mut tree = short_tree(rt, &writer_of(rt, (info, manager), body));
    let mut cursor = cursor_at(rt, size(rt), START);
    let _step = cursor.next(&mut tree).expect(rt, "no record");
    cursor
}
