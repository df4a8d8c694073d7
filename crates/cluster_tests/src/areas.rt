//! What is listed of a cluster at or below the folders that replay changes, worked out by hand by the rules of docs/FORMATS.md.
use crate::lists::tell_each;
use crate::texts::tell;
use crate::trees::{plan_of, root_of, tree_of};
use crate::walks::tell_fault;
use memory_tree::FailingTree;
use replay_areas::list_areas;
use std::process::Abort;
use tree_lines::cut_at;

/// Which read fails, a root, a tree, and what is listed.
pub(crate) const LISTED: &str = "\
areas 0 /x/t: d /x, d /x/t, f /x/t/PG_VERSION 3, f /x/t/backup_label 229, d /x/t/base, d \
    /x/t/base/5, f /x/t/base/5/16384 16384, f /x/t/base/5/16384_fsm 24576, d /x/t/global, f \
    /x/t/global/1262 8192, f /x/t/global/pg_control 8192, d /x/t/pg_multixact, d /x/t/pg_wal, f \
    /x/t/pg_wal/1 1, d /x/t/pg_xact, f /x/t/pg_xact/0000 8192 = file /x/t/backup_label 229, folder \
    /x/t/base, folder /x/t/base/5, page /x/t/base/5/16384 16384, file /x/t/base/5/16384_fsm 24576, folder \
    /x/t/global, page /x/t/global/1262 8192, file /x/t/global/pg_control 8192, folder \
    /x/t/pg_multixact, folder /x/t/pg_xact, file /x/t/pg_xact/0000 8192
areas 0 t: d t, d t/base, d t/base/a, f t/base/a/x 0, d t/base/a-b, f t/base/a-b/1 1 = folder t/base, folder \
    t/base/a, folder t/base/a-b, file t/base/a-b/1 1, file t/base/a/x 0
areas 0 .: f backup_label 7, d base, f base/x 1, d t, l t/u = file backup_label 7, folder base, file base/x 1
areas 0 /: d /base, d /bases, f /xact 1 = folder /base
areas 0 t: d t, f t/backup_label 0 = file t/backup_label 0
areas 0 t: d t, d t/base, d t/base/global, f t/base/global/123 100 = folder t/base, folder t/base/global, file \
    t/base/global/123 100
areas 0 t: d t, f t/pg_multixact 5, f t/base 6 = file t/base 6, file t/pg_multixact 5";

/// What lies elsewhere doesn't matter.
pub(crate) const ELSEWHERE: &str = "\
areas 0 t: d t = -
areas 0 t: d t, d t/basement, l t/basement/x, d t/old, d t/old/base, l t/old/base/y, d u, d u/base, l u/base/z = -
areas 0 t: d t, b t, d t/base, d t/pg_tblspc, l t/pg_tblspc/16500, b t/pg_tblspc, l t/pg_wal = folder t/base
areas 0 t: d t, l t/backup_label, d t/pg_xact = folder t/pg_xact
areas 0 t: d t, d t/backup_label, f t/backup_label/x 1 = -";

/// What is wrong at or below these folders, or with the root: the fault of the least path.
pub(crate) const REFUSED: &str = "\
areas 0 t: d t, d t/base, l t/base/x, d t/pg_xact, l t/pg_xact/y = Link base/x
areas 0 t: d t, l t/global, d t/pg_xact, l t/pg_xact/y = Link global
areas 0 t: d t, d t/pg_multixact, b t/pg_multixact = NameNotText pg_multixact
areas 0 t: d t, d t/base, d t/base/5, f t/base/5/16385 100 = OddSize base/5/16385 100
areas 0 t: d t, d t/global, f t/global/1262 1, f t/backup_label 1 = OddSize global/1262 1
areas 0 t = File t is not a folder
areas 0 t: f t 0 = File t is not a folder
areas 0 t: l t = File t is not a folder";

/// Each read that fails is told.
pub(crate) const FAILING: &str = "\
areas 1 t: d t, d t/base, f t/base/x 1 = File a read failed
areas 2 t: d t, d t/base, f t/base/x 1 = File a read failed
areas 3 t: d t, d t/base, f t/base/x 1 = File a read failed
areas 4 t: d t, d t/base, f t/base/x 1 = File a read failed
areas 5 t: d t, d t/base, f t/base/x 1 = File a read failed
areas 6 t: d t, d t/base, f t/base/x 1 = File a read failed
areas 7 t: d t, d t/base, f t/base/x 1 = File a read failed
areas 8 t: d t, d t/base, f t/base/x 1 = File a read failed
areas 9 t: d t, d t/base, f t/base/x 1 = File a read failed
areas 10 t: d t, d t/base, f t/base/x 1 = File a read failed
areas 11 t: d t, d t/base, f t/base/x 1 = folder t/base, file t/base/x 1";

/// `areas READ ROOT: LINE, ..`.
pub(crate) fn tell_areas<R: AllocGlobal + Abort>(rt: &R, out: &mut String, words: &str) {
    let (words, lines) = cut_at(words, ": ");
    let (read, root) = cut_at(words, " ");
    let mut tree = FailingTree::new(tree_of(rt, lines), plan_of(rt, read));
    match list_areas(rt.alloc(), &mut tree, &root_of(rt, root)) {
        Ok(areas) if areas.listed().is_empty() => tell(rt, out, "-"),
        Ok(areas) => tell_each(rt, out, areas.listed()),
        Err(fault) => tell_fault(rt, out, &fault),
    }
}
