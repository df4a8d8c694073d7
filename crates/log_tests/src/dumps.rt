// A dump whose reads fail, one after the other. Bytes and the line are written out from the format.
use crate::logs::{FIRST, log_path, one_timeline, size};
use crate::written::{append, short_tree, writer_of};
use memory_tree::{FailPlan, FailingTree, MemorySink};
use std::process::Abort;
use wal_base::Lsn;
use wal_records::LogWriter;
use waldump_core::{DumpFault, Selection, dump};

/// All that is shown, from the segment's start on.
const ALL: Selection = Selection {
    start: Lsn(FIRST),
    stop: None,
    limit: 0,
    details: false,
    quiet: false,
    images_only: false,
    manager: None,
    rel: None,
    block: None,
    fork: None,
    xid: None,
};

/// Of a record of a header alone at 0/100028.
const LINE: &str = "rmgr: XLOG        len (rec/tot):     24/    24, tx:          0, \
    lsn: 0/00100028, prev 0/00000000, desc: NOOP \n";

/// The body of a record of 8200 main bytes.
fn long_body<R: AllocGlobal + Abort>(rt: &R) -> Vec<u8> {
    let mut body = vec![in rt.alloc(); 0; 8205].expect(rt, "no memory");
    body.as_mut_slice()[..5].copy_from_slice(&[254, 0x08, 0x20, 0, 0]);
    body
}

/// A log with a record on its first page, and one that goes on to the second; both are of the manager XLOG and say
/// nothing.
fn two_records<R: AllocGlobal + Abort>(rt: &R) -> LogWriter {
    let mut writer = writer_of(rt, (0x20, 0), &[]);
    append(rt, &mut writer, 0, (0x20, 0), &long_body(rt));
    writer
}

/// Whether the dump of a tree's log is refused for a read that failed.
fn is_refused<R: AllocGlobal + Abort>(
    rt: &R,
    tree: &mut FailingTree,
    out: &mut MemorySink,
) -> bool {
    let log = log_path(rt, size(rt), one_timeline(rt), None);
    dump(rt.alloc(), tree, out, log, &ALL) == Err(DumpFault::ReadFault)
}

/// Whether a dump whose read of a number fails says so, and leaves a text.
fn leaves<R: AllocGlobal + Abort>(rt: &R, read: u64, text: &str) -> bool {
    let mut out = MemorySink::new(rt.alloc(), FailPlan::Never);
    let mut tree = FailingTree::new(short_tree(rt, &two_records(rt)), FailPlan::At(read));
    is_refused(rt, &mut tree, &mut out) && out.bytes() == text.as_bytes()
}

#[test]
fn a_failed_read_leaves_the_lines_before_it(rt: HostRuntime) {
    let first = leaves(&rt, 1, "");
    let second = leaves(&rt, 2, "");
    let third = leaves(&rt, 3, LINE);
    assert!(rt; first && second && third);
}
