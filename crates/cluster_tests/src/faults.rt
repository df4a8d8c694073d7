//! A device that fails at each call of a reset in turn: the answer is of that call's kind, and what stands is what the
//! calls before it left, under the mark from the first of them on until the last but one.
use crate::options::options_of;
use crate::resets::{CONTROL, cluster, found_in, tell_answer};
use crate::texts::{number, says, tell};
use crate::trees::path_of;
use cluster_tree::{ChangeCall, Kind, Tree};
use clusters::Found;
use memory_tree::{FailPlan, FailingTree, MemoryTree};
use std::process::Abort;
use tree_lines::{cut_at, sum_of};

/// The first and the last call that fails, the answer, and what stands then: `m` the mark, with its text `t`; `c` the new
/// control file; `1` and `2` the segments, `p` the unfinished one, `d` what is said of the first; `n` the new segment. The
/// reads come first; behind the last call none fails.
pub(crate) const BROKEN: &str = "\
broken 1 11 = a read failed 12pd
broken 12 12 = a write failed 12pd
broken 13 13 = a write failed m12pd
broken 14 15 = a write failed t12pd
broken 16 16 = a write failed tc12pd
broken 17 17 = a write failed tc2pd
broken 18 18 = a write failed tcpd
broken 19 19 = a write failed tcd
broken 20 20 = a write failed tc
broken 21 39 = a write failed tcn
broken 40 40 = a write failed cn
broken 41 41 = 0/400028 cn";

/// The changing calls of the reset in order, each by its first and its last number; the writes of the segment's zeros are
/// one of 16.
pub(crate) const CALLS: &str = "\
call 0 0 = file t/pg_resetwal.unfinished
call 1 1 = write t/pg_resetwal.unfinished
call 2 2 = sync
call 3 3 = write t/global/pg_control
call 4 4 = remove t/pg_wal/000000010000000000000001
call 5 5 = remove t/pg_wal/000000010000000000000002
call 6 6 = remove t/pg_wal/000000010000000000000003.partial
call 7 7 = remove t/pg_wal/archive_status/000000010000000000000001.done
call 8 8 = file t/pg_wal/000000010000000000000004
call 9 25 = write t/pg_wal/000000010000000000000004
call 26 26 = sync
call 27 27 = remove t/pg_resetwal.unfinished
call 28 28 = sync
call 29 29 = none";

const FILES: &str = "\
h t/pg_wal/000000010000000000000001 78, h t/pg_wal/000000010000000000000002 78, h \
    t/pg_wal/000000010000000000000003.partial 78, h \
    t/pg_wal/archive_status/000000010000000000000001.done 78";

const MARK: &str = "t/pg_resetwal.unfinished";

/// Files by their letters.
const LETTERS: &str = "\
1 t/pg_wal/000000010000000000000001
2 t/pg_wal/000000010000000000000002
p t/pg_wal/000000010000000000000003.partial
d t/pg_wal/archive_status/000000010000000000000001.done
n t/pg_wal/000000010000000000000004";

fn is_file<R: AllocGlobal + Abort>(rt: &R, tree: &mut MemoryTree, text: &str) -> bool {
    tree.kind(&path_of(rt, text)) == Ok(Kind::File)
}

// The letter of the mark, or nothing.
fn mark<R: AllocGlobal + Abort>(rt: &R, tree: &mut MemoryTree) -> &'static str {
    let mut text = [0; 14];
    match found_in(rt, tree, MARK, &mut text) {
        Found::Missing => "",
        Found::Filled if text == *b"pg_resetwal 1\n" => "t",
        _ => "m",
    }
}

// The letter of the control file, or nothing.
fn control<R: AllocGlobal + Abort>(rt: &R, tree: &mut MemoryTree) -> &'static str {
    let mut bytes = [0; 8192];
    let found = found_in(rt, tree, CONTROL, &mut bytes);
    let new = found == Found::Filled && sum_of(&bytes, 288) == 0xB40D_4A1B;
    if new { "c" } else { "" }
}

// Tells what stands.
fn tell_standing<R: AllocGlobal + Abort>(rt: &R, out: &mut String, tree: &mut MemoryTree) {
    tell(rt, out, mark(rt, tree));
    tell(rt, out, control(rt, tree));
    for line in LETTERS.split('\n') {
        let (letter, file) = cut_at(line, " ");
        if is_file(rt, tree, file) {
            tell(rt, out, letter);
        }
    }
}

// Tells the answer where the device's call of a number fails, and what stands then.
fn tell_broken<R: AllocGlobal + Abort>(rt: &R, out: &mut String, number: u32) {
    let tree = cluster(rt, "plain", FILES);
    let mut tree = FailingTree::new(tree, FailPlan::At(u64::from(number)));
    tell_answer(rt, out, &mut tree, &options_of(rt, "-"));
    tell(rt, out, " ");
    tell_standing(rt, out, &mut tree.into_inner());
}

fn tell_change<R: Abort>(rt: &R, out: &mut String, call: &ChangeCall) {
    match call {
        ChangeCall::Write(path, _, _) => says(rt, out, "write ", path),
        ChangeCall::Cut(path, _) => says(rt, out, "cut ", path),
        ChangeCall::MakeFile(path) => says(rt, out, "file ", path),
        ChangeCall::MakeFolder(path) => says(rt, out, "folder ", path),
        ChangeCall::Remove(path) => says(rt, out, "remove ", path),
        ChangeCall::Sync => tell(rt, out, "sync"),
    }
}

// Tells the changing call of a number of a reset.
fn tell_call<R: AllocGlobal + Abort>(rt: &R, out: &mut String, number: u32) {
    let mut tree = cluster(rt, "plain", FILES);
    let before = tree.changes();
    tell_answer(rt, out, &mut tree, &options_of(rt, "-"));
    out.clear();
    match tree.change(before.saturating_add(number as usize)) {
        Some(call) => tell_change(rt, out, call),
        None => tell(rt, out, "none"),
    }
}

fn tell_one<R: AllocGlobal + Abort>(rt: &R, out: &mut String, verb: &str, number: u32) {
    match verb {
        "broken" => tell_broken(rt, out, number),
        _ => tell_call(rt, out, number),
    }
}

// Whether the same is told of a number.
fn is_told<R: AllocGlobal + Abort>(rt: &R, told: &str, verb: &str, number: u32) -> bool {
    let mut out = String::new(rt.alloc());
    tell_one(rt, &mut out, verb, number);
    out.as_str() == told
}

/// `broken FIRST LAST` or `call FIRST LAST`: what is told of each number, which has to be the same.
pub(crate) fn tell_faults<R: AllocGlobal + Abort>(
    rt: &R,
    out: &mut String,
    verb: &str,
    words: &str,
) {
    let (first, last) = cut_at(words, " ");
    let (first, last) = (number(rt, first), number(rt, last));
    tell_one(rt, out, verb, last);
    for other in first..last {
        if !is_told(rt, out.as_str(), verb, other) {
            return says(rt, out, ", but not of ", &other);
        }
    }
}
