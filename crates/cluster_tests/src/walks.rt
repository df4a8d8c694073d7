//! What lies below a root, and what is wrong there. The expected lines come from a script of its own that sorts the paths
//! below the root by their bytes.
use crate::texts::{number, says, tell};
use crate::trees::{path_of, plan_of, tree_of};
use cluster_tree::{Path, Tree};
use file_walk::{Entries, EntryKind, Pair, WalkFault, pair_up, walk};
use memory_tree::{FailingTree, MemoryTree};
use std::process::Abort;
use tree_lines::cut_at;

/// Which read fails, a root, a tree, and the entries below the root in the order of texts.
pub(crate) const IN_ORDER: &str = "\
walk 0 t: d t, d t/a, f t/a/x 1, f t/a-b 2, f t/a.b 3, d t/a/y, f t/a/y/z 0, f t/a0 4, d t-u, f \
    t-u/a 5, f t.v 6 = a /, a-b 2, a.b 3, a/x 1, a/y /, a/y/z 0, a0 4
walk 0 .: d base, d base/1, f base/1/2 8192, d base.old, f base.old/3 7 = base /, base.old /, \
    base.old/3 7, base/1 /, base/1/2 8192
walk 0 /t: d /t, f /t/B 1, f /t/b 2, f /t/é 3, d t, f t/c 4 = B 1, b 2, é 3
walk 0 t/s: d t, d t/s, l u = -";

/// What is wrong below `t`, or with it: the fault of the least path.
pub(crate) const REFUSED: &str = "\
walk 0 t = File t is not a folder
walk 0 t: f t 0 = File t is not a folder
walk 0 t: l t = File t is not a folder
walk 0 t: d t, l t/l, b t = NameNotText .
walk 0 t: d t, d t/a, l t/a/x, l t/a-b = Link a-b
walk 0 t: d t, d t/a, l t/a/x, f t/a-b 1 = Link a/x
walk 0 t: d t, d t/a, b t/a, l t/b = NameNotText a
walk 0 t: d t, d t/pg_tblspc, l t/pg_tblspc/16500 = Link pg_tblspc/16500
walk 0 t: d t, d t/base, d t/base/5, f t/base/5/16385 100 = OddSize base/5/16385 100
walk 0 t: d t, d t/base, d t/base/5, f t/base/5/16385.1 8193, f t/base/5/16385 0 = OddSize \
    base/5/16385.1 8193
walk 0 t: d t, d t/global, f t/global/1262 1, l t/globaz = OddSize global/1262 1";

/// Each read that fails is told.
pub(crate) const FAILING: &str = "\
walk 1 t: d t, d t/a, f t/a/x 1, f t/b 2 = File a read failed
walk 2 t: d t, d t/a, f t/a/x 1, f t/b 2 = File a read failed
walk 3 t: d t, d t/a, f t/a/x 1, f t/b 2 = File a read failed
walk 4 t: d t, d t/a, f t/a/x 1, f t/b 2 = File a read failed
walk 5 t: d t, d t/a, f t/a/x 1, f t/b 2 = File a read failed
walk 6 t: d t, d t/a, f t/a/x 1, f t/b 2 = File a read failed
walk 7 t: d t, d t/a, f t/a/x 1, f t/b 2 = File a read failed
walk 8 t: d t, d t/a, f t/a/x 1, f t/b 2 = a /, a/x 1, b 2";

/// Only files of main forks are whole blocks; folders in one another, of which the last has 64 parts.
pub(crate) const COUNTED: &str = "\
count t: d t, d t/base, d t/base/5, f t/base/5/16385_vm 100, f t/base/5/PG_VERSION 3, f \
    t/base/5/016385 5, f t/base/5/16385.0 6, d t/base/05, f t/base/05/1 7, f t/base/5/0 8, f \
    t/base/5/4294967296 9 = 10
nested 64 = 63";

/// The paths of two walks side by side.
pub(crate) const PAIRS: &str = "\
pairs d t, d t/a, f t/a/x 1, f t/a-b 2, d t/c, d s, d s/a, f s/a/x 3, f s/a/w 4, f s/b 5, f s/c 6 \
    = a / /, a-b 2 -, a/w - 4, a/x 1 3, b - 5, c / 6";

/// Tells a fault by its variant and its values.
pub(crate) fn tell_fault<R: Abort>(rt: &R, out: &mut String, fault: &WalkFault) {
    match fault {
        WalkFault::Link(path) => says(rt, out, "Link ", path),
        WalkFault::NameNotText(path) => says(rt, out, "NameNotText ", path),
        WalkFault::TooDeep(path) => says(rt, out, "TooDeep ", path),
        WalkFault::OddSize(path, size) => {
            says(rt, out, "OddSize ", path);
            says(rt, out, " ", size);
        }
        WalkFault::File(cause) => says(rt, out, "File ", cause),
    }
}

/// Tells what stands somewhere.
fn tell_kind<R: Abort>(rt: &R, out: &mut String, kind: Option<&EntryKind>) {
    match kind {
        None => tell(rt, out, "-"),
        Some(EntryKind::Folder) => tell(rt, out, "/"),
        Some(EntryKind::File(size)) => says(rt, out, "", size),
    }
}

/// Tells a path behind what was told.
fn tell_name<R: Abort>(rt: &R, out: &mut String, path: &Path) {
    let gap = if out.is_empty() { "" } else { ", " };
    says(rt, out, gap, path);
    tell(rt, out, " ");
}

/// Tells the entries, a dash where there is none.
fn tell_entries<R: Abort>(rt: &R, out: &mut String, entries: &Entries) {
    if entries.len() == 0 {
        return tell(rt, out, "-");
    }
    for at in 0..entries.len() {
        if let Some(entry) = entries.get(at) {
            tell_name(rt, out, &entry.path);
            tell_kind(rt, out, Some(&entry.kind));
        }
    }
}

/// Tells what a walk gives.
pub(crate) fn tell_walk<F: Tree, R: AllocGlobal + Abort>(
    rt: &R,
    out: &mut String,
    tree: &mut F,
    root: &str,
) {
    match walk(rt.alloc(), tree, &path_of(rt, root)) {
        Ok(entries) => tell_entries(rt, out, &entries),
        Err(fault) => tell_fault(rt, out, &fault),
    }
}

/// What a walk of a tree gives where the read of a number fails, none for 0.
fn tell_failing<R: AllocGlobal + Abort>(rt: &R, out: &mut String, words: &str, lines: &str) {
    let (read, root) = cut_at(words, " ");
    let mut tree = FailingTree::new(tree_of(rt, lines), plan_of(rt, read));
    tell_walk(rt, out, &mut tree, root);
}

fn entries_of<R: AllocGlobal + Abort>(rt: &R, tree: &mut MemoryTree, root: &str) -> Entries {
    walk(rt.alloc(), tree, &path_of(rt, root)).expect(rt, "no walk")
}

/// Tells how many entries a walk finds.
fn tell_count<R: AllocGlobal + Abort>(rt: &R, out: &mut String, tree: &mut MemoryTree, root: &str) {
    says(rt, out, "", &entries_of(rt, tree, root).len());
}

/// Folders below `t` that lie in one another, the last of so many parts with that of the root.
fn nested<R: AllocGlobal + Abort>(rt: &R, parts: u32) -> MemoryTree {
    let mut tree = tree_of(rt, "d t");
    let mut folder = path_of(rt, "t");
    for _ in 1..parts {
        folder = folder.join(rt.alloc(), "d").expect(rt, "no path");
        tree.make_folder(&folder).expect(rt, "no folder");
    }
    tree
}

fn tell_pair<R: Abort>(rt: &R, out: &mut String, pair: &Pair) {
    tell_name(rt, out, &pair.path);
    tell_kind(rt, out, pair.target.as_ref());
    tell(rt, out, " ");
    tell_kind(rt, out, pair.source.as_ref());
}

fn tell_pairs<R: AllocGlobal + Abort>(rt: &R, out: &mut String, lines: &str) {
    let mut tree = tree_of(rt, lines);
    let target = entries_of(rt, &mut tree, "t");
    let source = entries_of(rt, &mut tree, "s");
    let pairs = pair_up(rt.alloc(), target, source).expect(rt, "no memory");
    for pair in pairs.iter() {
        tell_pair(rt, out, pair);
    }
}

/// `walk READ ROOT: LINE, ..`, `count ROOT: LINE, ..`, `nested PARTS` or `pairs LINE, ..`.
pub(crate) fn tell_walks<R: AllocGlobal + Abort>(
    rt: &R,
    out: &mut String,
    verb: &str,
    given: &str,
) {
    let (words, lines) = cut_at(given, ": ");
    match verb {
        "walk" => tell_failing(rt, out, words, lines),
        "count" => tell_count(rt, out, &mut tree_of(rt, lines), words),
        "nested" => tell_count(rt, out, &mut nested(rt, number(rt, words)), "t"),
        _ => tell_pairs(rt, out, given),
    }
}
