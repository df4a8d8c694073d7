//! The mark and the copies of a replay that can be started again, worked out by hand by the rules of docs/FORMATS.md: `copies lay CALLS` and
//! `copies end CALLS` fail from each call on, up to so many, and tell what the three images of each stop are, each kind once, and
//! whether the last was done; `copies clear` tells what is left.
use crate::texts::{number, tell};
use crate::trees::{path_of, put_all, put_file, root_of, tree_of};
use cluster_tree::{FileFault, Kind, Path, Tree};
use memory_tree::{FailPlan, FailingTree, MemoryTree};
use replay_copies::{begin_copies, clear_copies, end_copies};
use replay_list::Listed;
use std::process::Abort;

/// What a stop leaves.
pub(crate) const STOPS: &str = "\
copies lay 90 = shut, laid: done
copies end 40 = laid, ended, gone: done
copies clear = gone";

/// The list of the cluster below.
const TEXT: &[u8] =
    b"file 6261636b75705f6c6162656c 5 0\nfolder 62617365\nfolder 626173652f31\npage 626173652f312f32 4\nfile 626173652f312f33 0 1\nfolder 676c6f62616c\nfile 676c6f62616c2f34 3 2\nend\n";

/// A cluster, and the mark and the copies of a replay whose mark wasn't whole.
const CLUSTER: &str =
    "d t, h t/backup_label 6c6162656c, d t/base, d t/base/1, h t/base/1/2 70616765, \
    f t/base/1/3 0, d t/global, h t/global/4 616263, d t/pg_walreplay.shadow, h t/pg_walreplay.shadow/0 6f6c64, \
    d t/pg_walreplay.shadow/7, h t/pg_walreplay.shadow/7/x 6f6c64";

fn cluster<R: AllocGlobal + Abort>(rt: &R) -> MemoryTree {
    let mut tree = tree_of(rt, CLUSTER);
    let mark =
        b"pg_walreplay 2\n--\nleft of a run that was not whole, and longer than the list is, so that it is cut to nothing first: \
        else what follows it would stand behind the list, and it would be no list, since behind its end nothing may stand";
    put_file(rt, &mut tree, "t/pg_walreplay.unfinished", mark);
    tree.sync().expect(rt, "no sync");
    tree
}

fn add<R: Abort>(rt: &R, list: &mut Vec<Listed>, one: Listed) {
    list.push(one).expect(rt, "no memory");
}

fn list<R: AllocGlobal + Abort>(rt: &R) -> Vec<Listed> {
    let mut list = Vec::new(rt.alloc());
    add(
        rt,
        &mut list,
        Listed::File(path_of(rt, "t/backup_label"), 5),
    );
    add(rt, &mut list, Listed::Folder(path_of(rt, "t/base")));
    add(rt, &mut list, Listed::Folder(path_of(rt, "t/base/1")));
    add(rt, &mut list, Listed::Page(path_of(rt, "t/base/1/2"), 4));
    add(rt, &mut list, Listed::File(path_of(rt, "t/base/1/3"), 0));
    add(rt, &mut list, Listed::Folder(path_of(rt, "t/global")));
    add(rt, &mut list, Listed::File(path_of(rt, "t/global/4"), 3));
    list
}

/// The bytes of a file, none where there is none.
pub(crate) fn bytes_in<R: AllocGlobal + Abort>(
    rt: &R,
    tree: &mut MemoryTree,
    path: &str,
) -> Vec<u8> {
    let file = path_of(rt, path);
    let size = tree.size(&file).unwrap_or(0);
    let mut bytes = vec![in rt.alloc(); 0; size as usize].expect(rt, "no memory");
    if size > 0 {
        tree.read_at(&file, 0, &mut bytes).expect(rt, "no bytes");
    }
    bytes
}

fn has<R: AllocGlobal + Abort>(rt: &R, tree: &mut MemoryTree, path: &str, bytes: &[u8]) -> bool {
    bytes_in(rt, tree, path).as_slice() == bytes
}

fn is_absent<R: AllocGlobal + Abort>(rt: &R, tree: &mut MemoryTree, path: &str) -> bool {
    matches!(tree.kind(&path_of(rt, path)), Ok(Kind::Absent))
}

/// Whether the copies are those of the list, and nothing else is there.
fn are_copied<R: AllocGlobal + Abort>(rt: &R, tree: &mut MemoryTree) -> bool {
    has(rt, tree, "t/pg_walreplay.shadow/0", b"label")
        && has(rt, tree, "t/pg_walreplay.shadow/1", b"")
        && !is_absent(rt, tree, "t/pg_walreplay.shadow/1")
        && has(rt, tree, "t/pg_walreplay.shadow/2", b"abc")
        && is_absent(rt, tree, "t/pg_walreplay.shadow/3")
        && is_absent(rt, tree, "t/pg_walreplay.shadow/7")
}

/// Whether the cluster is as it was.
fn is_kept<R: AllocGlobal + Abort>(rt: &R, tree: &mut MemoryTree) -> bool {
    has(rt, tree, "t/backup_label", b"label")
        && has(rt, tree, "t/base/1/2", b"page")
        && has(rt, tree, "t/global/4", b"abc")
}

/// What a whole mark of these bytes is.
fn whole<R: AllocGlobal + Abort>(rt: &R, tree: &mut MemoryTree, mark: &[u8]) -> &'static str {
    if mark.get(17) != Some(&b'\n') || mark.get(18..) != Some(TEXT) {
        return "another list";
    }
    if mark.get(16) == Some(&b'+') {
        return "ended";
    }
    if are_copied(rt, tree) {
        "laid"
    } else {
        "other copies"
    }
}

/// What a tree is.
fn kind_of<R: AllocGlobal + Abort>(rt: &R, tree: &mut MemoryTree) -> &'static str {
    if !is_kept(rt, tree) {
        return "another cluster";
    }
    if is_absent(rt, tree, "t/pg_walreplay.unfinished") {
        return if is_absent(rt, tree, "t/pg_walreplay.shadow") {
            "gone"
        } else {
            "copies left"
        };
    }
    let mark = bytes_in(rt, tree, "t/pg_walreplay.unfinished");
    if mark.len() > 18 && mark.starts_with(b"pg_walreplay 2\n+") {
        whole(rt, tree, &mark)
    } else {
        "shut"
    }
}

/// Tells a kind that wasn't told before.
pub(crate) fn tell_kind<R: Abort>(rt: &R, out: &mut String, kind: &str) {
    if out.contains(kind) {
        return;
    }
    if !out.is_empty() {
        tell(rt, out, ", ");
    }
    tell(rt, out, kind);
}

/// Tells what each image of a tree is.
fn tell_images<R: AllocGlobal + Abort>(rt: &R, out: &mut String, tree: &MemoryTree) {
    for choice in 0..3 {
        let mut image = tree.image(rt.alloc(), choice).expect(rt, "no memory");
        tell_kind(rt, out, kind_of(rt, &mut image));
    }
}

/// A tree in which all is laid, for what is done with it.
fn begun<R: AllocGlobal + Abort>(rt: &R, verb: &str) -> MemoryTree {
    let mut tree = cluster(rt);
    if verb != "lay" {
        begin_copies(rt.alloc(), &mut tree, &root_of(rt, "t"), &list(rt)).expect(rt, "not laid");
    }
    tree
}

/// Does what the verb says.
fn run<F: Tree, R: AllocGlobal + Abort>(rt: &R, tree: &mut F, verb: &str) -> Result<(), FileFault> {
    let root = root_of(rt, "t");
    match verb {
        "lay" => begin_copies(rt.alloc(), tree, &root, &list(rt)),
        "end" => end_copies(rt.alloc(), tree, &root),
        _ => clear_copies(rt.alloc(), tree, &root),
    }
}

/// `lay CALLS`, `end CALLS` or `clear`.
pub(crate) fn tell_copies<R: AllocGlobal + Abort>(
    rt: &R,
    out: &mut String,
    verb: &str,
    calls: &str,
) {
    if verb == "clear" {
        let mut tree = begun(rt, verb);
        run(rt, &mut tree, verb).expect(rt, "not cleared");
        return tell_images(rt, out, &tree);
    }
    let mut is_done = false;
    for call in 1..=number(rt, calls) {
        let mut tree = FailingTree::new(begun(rt, verb), FailPlan::From(u64::from(call)));
        is_done = run(rt, &mut tree, verb).is_ok();
        tell_images(rt, out, &tree.into_inner());
    }
    tell(rt, out, if is_done { ": done" } else { ": not done" });
}
