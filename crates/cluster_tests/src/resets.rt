//! Whole resets of clusters in memory. Names, places and checksums come from a script of its own that follows the formats.
use crate::controls;
use crate::options::options_of;
use crate::texts::{says, tell_sum};
use crate::trees::{names_in, path_of, put_all, put_file, root_of, tree_of};
use cluster_tree::{Names, Path, Tree};
use clusters::{Found, read_whole};
use memory_tree::MemoryTree;
use reset_cleanup::{ResetOptions, is_fit, reset_log};
use std::process::Abort;
use tree_lines::{cut_at, sum_of};
use wal_base::Lsn;

/// The control file.
pub(crate) const CONTROL: &str = "t/global/pg_control";

/// Files of the log, of which the third is unfinished.
const NAMES: &str = "\
h t/pg_wal/000000010000000000000001 78, h t/pg_wal/000000010000000000000002 78, h \
    t/pg_wal/000000010000000000000003.partial 78";

/// Those, a history, and what is said of both kinds.
const LOG: &str = "\
h t/pg_wal/000000010000000000000001 78, h t/pg_wal/000000010000000000000002 78, h \
    t/pg_wal/000000010000000000000003.partial 78, h t/pg_wal/00000001.history 78, h \
    t/pg_wal/archive_status/000000010000000000000001.done 78, h \
    t/pg_wal/archive_status/00000001.history.done 78";

/// Options; the place of the new checkpoint, the checksums of the control file's first 288 bytes and of the new segment's
/// first page, and what stands in the folder of the log. Where the log begins:
pub(crate) const SEGMENTS: &str = "\
reset - = 0/400028 B40D4A1B 17BC3CE9 00000001.history 000000010000000000000004 archive_status
reset s 16 = 0/1000028 20409FD8 ADB3571A 00000001.history 000000010000000000000001 archive_status
reset l 2 0 16 = 0/1000028 2771EE8B C2856849 00000001.history 000000020000000000000010 \
    archive_status
reset l 1 0 2 = 0/400028 B40D4A1B 17BC3CE9 00000001.history 000000010000000000000004 archive_status
reset l 2 2147483647 4095 = 7FFFFFFF/FFF00028 C8FDECBF 2D275E20 00000001.history \
    000000027FFFFFFF00000FFF archive_status";

/// What the control file says, by each option once:
pub(crate) const OPTIONS: &str = "\
reset c 0 20 = 0/400028 EEE6DAC9 5F312ED3 00000001.history 000000010000000000000004 archive_status
reset c 21 0 = 0/400028 27DCD0A5 42FFC611 00000001.history 000000010000000000000004 archive_status
reset e 7 = 0/400028 EB85D42E 4DBFE981 00000001.history 000000010000000000000004 archive_status
reset x 1000 = 0/400028 58F4FD99 C57E5B32 00000001.history 000000010000000000000004 archive_status
reset e 8, x 2000 = 0/400028 9CE3A02F FF8B1BDB 00000001.history 000000010000000000000004 \
    archive_status
reset u 600 = 0/400028 9A2398D3 C087DD03 00000001.history 000000010000000000000004 archive_status
reset m 50 40 = 0/400028 FD7A19D0 F8EBC8C9 00000001.history 000000010000000000000004 archive_status
reset o 20000 = 0/400028 B1E51A13 5A3DD650 00000001.history 000000010000000000000004 archive_status
reset O 123 = 0/400028 12E7BF67 506D918B 00000001.history 000000010000000000000004 archive_status";

// A cluster `t` with this control file, unless it has `none`, and no folder of the log.
fn bare<R: AllocGlobal + Abort>(rt: &R, control: &str) -> MemoryTree {
    let mut tree = tree_of(rt, "d t, d t/global");
    if control != "none" {
        put_file(rt, &mut tree, CONTROL, &controls::reset(rt, control));
    }
    tree
}

/// A cluster `t` with these fields of its control file and these entries beside it.
pub(crate) fn cluster_of<R: AllocGlobal + Abort>(rt: &R, control: &str, lines: &str) -> MemoryTree {
    let mut tree = bare(rt, control);
    put_all(rt, &mut tree, lines);
    tree
}

/// A cluster `t` with a folder of the log, and in it files: `NAMES`, or their lines.
pub(crate) fn cluster<R: AllocGlobal + Abort>(rt: &R, control: &str, files: &str) -> MemoryTree {
    let files = if files == "NAMES" { NAMES } else { files };
    let mut tree = cluster_of(rt, control, "d t/pg_wal, d t/pg_wal/archive_status");
    put_all(rt, &mut tree, files);
    tree
}

/// Tells what a reset of `t` in November 2023 answers: the place of the new checkpoint, or the fault.
pub(crate) fn tell_answer<F: Tree, R: AllocGlobal + Abort>(
    rt: &R,
    out: &mut String,
    tree: &mut F,
    options: &ResetOptions,
) {
    assert!(rt; is_fit(options), "unfit");
    match reset_log(rt.alloc(), tree, &root_of(rt, "t"), options, 1700000000) {
        Ok(control) => says(rt, out, "", &Lsn(control.checkPoint)),
        Err(fault) => says(rt, out, "", &fault),
    }
}

/// Fills with the bytes of a file, which has to have as many.
pub(crate) fn found_in<R: AllocGlobal + Abort>(
    rt: &R,
    tree: &mut MemoryTree,
    file: &str,
    into: &mut [u8],
) -> Found {
    read_whole(tree, path_of(rt, file), into).expect(rt, "no answer")
}

fn are_zeros(bytes: &[u8]) -> bool {
    for &byte in bytes {
        if byte != 0 {
            return false;
        }
    }
    true
}

// Whether a control file says this sum, before zeros.
fn says_sum(bytes: &[u8], sum: u32) -> bool {
    match bytes.get(292..) {
        Some(rest) => bytes.get(288..292) == Some(&sum.to_le_bytes()[..]) && are_zeros(rest),
        None => false,
    }
}

// The checksum of the control file, which has to say it, before zeros.
fn sealed<R: AllocGlobal + Abort>(rt: &R, tree: &mut MemoryTree) -> u32 {
    let mut bytes = [0; 8192];
    let found = found_in(rt, tree, CONTROL, &mut bytes);
    let sum = sum_of(&bytes, 288);
    assert!(rt;
        found == Found::Filled && says_sum(&bytes, sum),
        "not sealed"
    );
    sum
}

// The checksum of a new segment's first page, which has to have this size and to end in zeros.
fn page_sum<R: Abort>(rt: &R, tree: &mut MemoryTree, file: &Path, size: u64) -> u32 {
    let mut page = [0; 8192];
    tree.read_at(file, size.saturating_sub(8192), &mut page)
        .expect(rt, "no last page");
    assert!(rt;
        tree.size(file) == Ok(size) && are_zeros(&page),
        "not a new segment"
    );
    tree.read_at(file, 0, &mut page).expect(rt, "no first page");
    sum_of(&page, 8192)
}

// The checksum of the new segment, which stands behind the history.
fn new_sum<R: AllocGlobal + Abort>(
    rt: &R,
    tree: &mut MemoryTree,
    names: &Names,
    megabytes: u32,
) -> u32 {
    let name = names.get(1).expect(rt, "no new segment");
    let folder = path_of(rt, "t/pg_wal");
    let file = folder.join(rt.alloc(), name).expect(rt, "no path");
    let size = u64::from(megabytes).saturating_mul(1048576);
    page_sum(rt, tree, &file, size)
}

// Tells names.
fn tell_names<R: Abort>(rt: &R, out: &mut String, names: &Names) {
    for at in 0..names.len() {
        says(rt, out, " ", &names.get(at).unwrap_or(""));
    }
}

// One name or two have to stand in a folder, and no other.
fn check_names<R: AllocGlobal + Abort>(
    rt: &R,
    tree: &mut MemoryTree,
    folder: &str,
    first: &str,
    second: Option<&str>,
) {
    let names = names_in(rt, tree, folder);
    assert!(rt;
        names.get(0) == Some(first) && names.get(1) == second,
        "other names"
    );
    assert!(rt; names.len() <= 2, "other names");
}

// What a reset left, behind what it said.
fn tell_left<R: AllocGlobal + Abort>(
    rt: &R,
    out: &mut String,
    tree: &mut MemoryTree,
    megabytes: u32,
) {
    let names = names_in(rt, tree, "t/pg_wal");
    tell_sum(rt, out, sealed(rt, tree));
    tell_sum(rt, out, new_sum(rt, tree, &names, megabytes));
    tell_names(rt, out, &names);
}

// Tells of a reset of a cluster with a whole log, which keeps what stands elsewhere.
fn tell_log<R: AllocGlobal + Abort>(rt: &R, out: &mut String, options: &str) {
    let options = options_of(rt, options);
    let mut tree = cluster(rt, "plain", LOG);
    tell_answer(rt, out, &mut tree, &options);
    tell_left(rt, out, &mut tree, options.segment_mb.unwrap_or(1));
    let said = "t/pg_wal/archive_status";
    check_names(rt, &mut tree, "t", "global", Some("pg_wal"));
    check_names(rt, &mut tree, "t/global", "pg_control", None);
    check_names(rt, &mut tree, said, "00000001.history.done", None);
}

// Tells what a reset says, which has to `change` the tree, or to `keep` it.
fn tell_changing<R: AllocGlobal + Abort>(rt: &R, out: &mut String, verb: &str, words: &str) {
    let (options, behind) = cut_at(words, " | ");
    let (control, lines) = cut_at(behind, " | ");
    let mut tree = cluster_of(rt, control, lines);
    let before = tree.changes();
    tell_answer(rt, out, &mut tree, &options_of(rt, options));
    let changed = tree.changes() != before;
    assert!(rt; changed == (verb == "change"), "changed, or not");
}

/// `reset OPTIONS`, `keep OPTIONS | CONTROL | LINE, ..` or `change OPTIONS | CONTROL | LINE, ..`.
pub(crate) fn tell_reset<R: AllocGlobal + Abort>(
    rt: &R,
    out: &mut String,
    verb: &str,
    words: &str,
) {
    match verb {
        "reset" => tell_log(rt, out, words),
        _ => tell_changing(rt, out, verb, words),
    }
}
