//! What is brought back of a cluster that was listed and of which copies were laid, and then was changed; worked out by hand by the rules of
//! docs/FORMATS.md.
use crate::copies::{bytes_in, tell_kind};
use crate::lists::tell_each;
use crate::texts::{number, says, tell, tell_runs};
use crate::trees::{put_all, root_of, tree_of};
use memory_tree::{FailPlan, FailingTree, MemoryTree};
use replay_areas::{AreaList, list_areas};
use replay_copies::begin_copies;
use replay_restore::restore_areas;
use std::process::Abort;
use tree_lines::cut_at;

/// What is gone, what is of another kind, and what is new; files of main forks that grew or got shorter; and what lies elsewhere.
pub(crate) const BACK: &str = "\
restored t/base/5/16384 t/global/pg_control t/pg_xact/0000 t/backup_label: d t, h t/backup_label 6c6c6c, d t/base, d \
    t/base/5, r t/base/5/16384 a*8192 b*8192, h t/base/5/PG_VERSION 31, d t/global, h t/global/pg_control 6363, d \
    t/pg_xact, h t/pg_xact/0000 6464; x t/backup_label, x t/base/5/16384, x t/base/5/PG_VERSION, x t/base/5, d \
    t/base/6, d t/base/6/7, h t/base/6/7/1 31, d t/pg_multixact, h t/pg_xact/0001 31, x t/global/pg_control, h \
    t/global/pg_control 7a7a7a7a, x t/pg_xact/0000, d t/pg_xact/0000, h t/pg_xact/0000/x 31 = file t/backup_label 3, folder \
    t/base, folder t/base/5, page t/base/5/16384 16384, file t/base/5/PG_VERSION 1, folder t/global, file \
    t/global/pg_control 2, folder t/pg_xact, file t/pg_xact/0000 2: \0*16384: c*2: d*2: l*3
restored t/base/5/1 t/base/5/2: d t, h t/backup_label 6c, d t/base, d t/base/5, r t/base/5/1 a*8192 b*8192, r t/base/5/2 \
    c*8192; x t/base/5/1, r t/base/5/1 x*8192, x t/base/5/2, r t/base/5/2 y*8192 z*100 = file t/backup_label 1, folder \
    t/base, folder t/base/5, page t/base/5/1 16384, page t/base/5/2 8192: x*8192 \0*8192: y*8192
restored t/PG_VERSION t/pg_wal/1: d t, h t/PG_VERSION 31, d t/base; x t/PG_VERSION, h t/PG_VERSION 32, d t/pg_wal, h \
    t/pg_wal/1 33, h t/backup_label 6c = file t/backup_label 1, folder t/base: 2*1: 3*1";

/// What is in the way, and each fault of the device.
pub(crate) const IN_THE_WAY: &str = "\
restored -: d t, d t/base; d t/base/9, l t/base/9/x = t/base/9/x is a link or a special file
restored -: d t, d t/base; l t/pg_xact = t/pg_xact is a link or a special file
restored -: d t, d t/base, d t/base/5; b t/base/5 = t/base/5 holds a name that is not UTF-8
restored -: d t, h t/backup_label 6c, d t/base; x t/backup_label, d t/backup_label, h t/backup_label/x 31 = t/backup_label \
    is a folder
restored t/base/1: d t, d t/base, h t/base/1 31; x t/base/1, d t/backup_label = folder t/base, file t/base/1 1: 1*1
unrestored 60: d t, h t/backup_label 6c, d t/base, d t/base/5, r t/base/5/1 a*8192; d t/pg_xact, x t/base/5/1 = a read \
    failed, a write failed: done";

/// A cluster as lines make it, with its mark and copies, and then changed.
fn changed<R: AllocGlobal + Abort>(rt: &R, lines: &str, changes: &str) -> (MemoryTree, AreaList) {
    let mut tree = tree_of(rt, lines);
    let root = root_of(rt, "t");
    let areas = list_areas(rt.alloc(), &mut tree, &root).expect(rt, "not listed");
    begin_copies(rt.alloc(), &mut tree, &root, areas.listed()).expect(rt, "not laid");
    put_all(rt, &mut tree, changes);
    (tree, areas)
}

/// `PATH ..: LINE, ..; LINE, ..`: the files whose bytes are told, a cluster, and what is changed of it.
fn tell_back<R: AllocGlobal + Abort>(rt: &R, out: &mut String, words: &str) {
    let (paths, body) = cut_at(words, ": ");
    let (lines, changes) = cut_at(body, "; ");
    let (mut tree, areas) = changed(rt, lines, changes);
    let root = root_of(rt, "t");
    if let Err(fault) = restore_areas(rt.alloc(), &mut tree, &root, areas.listed()) {
        return says(rt, out, "", &fault);
    }
    let left = list_areas(rt.alloc(), &mut tree, &root).expect(rt, "not listed");
    tell_each(rt, out, left.listed());
    for path in paths.split(' ') {
        tell(rt, out, ":");
        tell_runs(rt, out, &bytes_in(rt, &mut tree, path));
    }
}

/// What is answered where a call fails, and whether it is done.
fn tell_failing<R: AllocGlobal + Abort>(
    rt: &R,
    out: &mut String,
    words: (&str, &str),
    call: u32,
) -> bool {
    let (tree, areas) = changed(rt, words.0, words.1);
    let mut tree = FailingTree::new(tree, FailPlan::At(u64::from(call)));
    let result = restore_areas(rt.alloc(), &mut tree, &root_of(rt, "t"), areas.listed());
    if let Err(fault) = &result {
        let mut said = String::new(rt.alloc());
        says(rt, &mut said, "", fault);
        tell_kind(rt, out, said.as_str());
    }
    result.is_ok()
}

/// `restored PATH ..: LINE, ..; LINE, ..`; or `unrestored CALLS: LINE, ..; LINE, ..`, in which each call fails in turn, and each answer is
/// told once.
pub(crate) fn tell_restored<R: AllocGlobal + Abort>(
    rt: &R,
    out: &mut String,
    verb: &str,
    words: &str,
) {
    if verb == "restored" {
        return tell_back(rt, out, words);
    }
    let (calls, body) = cut_at(words, ": ");
    let mut is_done = false;
    for call in 1..=number(rt, calls) {
        is_done = tell_failing(rt, out, cut_at(body, "; "), call);
    }
    tell(rt, out, if is_done { ": done" } else { ": not done" });
}
