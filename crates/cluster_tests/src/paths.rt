//! What a rewind does at a path, which paths are excluded, and which are files of main forks. The expected values are those
//! of the table in docs/FORMATS.md, and of a script of its own, which reads paths by a regular expression.
use crate::kinds::kind_of;
use crate::texts::{says, shows, tell};
use crate::trees::path_of;
use block_refs::RelName;
use cluster_tree::Path;
use file_walk::{decide, excluded, is_relation_file};
use std::process::Abort;
use tree_lines::cut_at;

/// A path, what the target and the source have there, and what is done.
pub(crate) const ACTIONS: &str = "\
action global/pg_control 8192 8192 = Nothing
action global/pg_control / - = Nothing
action pg_rewind.unfinished 12 - = Nothing
action pg_walreplay.unfinished - / = Nothing
action pg_resetwal.unfinished 14 14 = Nothing
action base/pg_rewind.unfinished 12 - = Remove
action pg_control 8192 8192 = Copy
action backup_label 173 - = Remove
action backup_label - 173 = Nothing
action pg_replslot/s/state - 200 = Nothing
action pg_replslot/s / / = Remove
action pg_replslot / / = Nothing
action pg_replslot - / = MakeFolder
action base/5/pg_internal.init.12 1 2 = Remove
action base/5 - - = Nothing
action base/5 - / = MakeFolder
action base/5/16385 - 8192 = Copy
action base/5/16385 8192 - = Remove
action base/5 / - = Remove
action base/5/16385 8192 / = KindsDiffer
action pg_xact / 5 = KindsDiffer
action pg_xact / / = Nothing
action base/5/PG_VERSION 3 4 = Nothing
action MY_PG_VERSION 3 4 = Nothing
action PG_VERSION/x 3 3 = Copy
action base/5/16385 8192 16384 = Tail
action base/5/16385.1 16384 0 = Cut
action global/1262 8192 8192 = Nothing
action base/5/16385_fsm 8192 16384 = Copy
action base/5/16385_fsm 8192 8192 = Copy
action pg_xact/0000 8192 8192 = Copy";

/// Paths, and whether a rewind leaves them out.
pub(crate) const EXCLUDED: &str = "\
excluded pg_stat_tmp = false
excluded pg_stat_tmp/global.stat = true
excluded pg_replslot/a/b/c = true
excluded pg_dynshmem/x = true
excluded pg_notify/0000 = true
excluded pg_serial/0000 = true
excluded pg_snapshots/1 = true
excluded pg_subtrans/0000 = true
excluded base/pg_subtrans/0000 = false
excluded pg_subtransx/0000 = false
excluded postgresql.auto.conf.tmp = true
excluded postgresql.auto.conf = false
excluded current_logfiles.tmp = true
excluded tablespace_map = true
excluded backup_manifest = true
excluded postmaster.pid = true
excluded postmaster.opts = true
excluded base/5/postmaster.opts = true
excluded global/pg_internal.init = true
excluded pg_internal.initial = true
excluded pg_internal.ini = false
excluded xpg_internal.init = false
excluded backup_label = true
excluded backup_label.old = false
excluded backup_label/x/y = true
excluded . = false";

/// Paths, and the relation and the segment, or `-`.
pub(crate) const RELATIONS: &str = "\
relation global/1262 = 1664/0/1262 0
relation global/1262.7 = 1664/0/1262 7
relation base/5/16385 = 1663/5/16385 0
relation base/4294967295/1.4294967295 = 1663/4294967295/1 4294967295
relation base/5/16385_vm = -
relation base/5/16385_fsm.1 = -
relation base/5/16385_init = -
relation base/5/16385.0 = -
relation base/5/016385 = -
relation base/05/16385 = -
relation base/0/16385 = -
relation base/5/0 = -
relation base/5/4294967296 = -
relation base/4294967296/5 = -
relation base/16385 = -
relation global/5/1262 = -
relation base/5/16385/1 = -
relation base = -
relation 16385 = -
relation . = -
relation pg_tblspc/5/16385 = -
relation /base/5/16385 = -";

fn tell_action<R: Abort>(rt: &R, out: &mut String, path: &Path, words: &str) {
    let (target, source) = cut_at(words, " ");
    let target = kind_of(rt, target);
    let source = kind_of(rt, source);
    let action = decide(path, target.as_ref(), source.as_ref());
    shows(rt, out, "", &action);
}

fn tell_relation<R: Abort>(rt: &R, out: &mut String, found: Option<(RelName, u32)>) {
    match found {
        None => tell(rt, out, "-"),
        Some((rel, segment)) => {
            says(rt, out, "", &rel);
            says(rt, out, " ", &segment);
        }
    }
}

/// `action PATH TARGET SOURCE`, `excluded PATH` or `relation PATH`.
pub(crate) fn tell_path<R: AllocGlobal + Abort>(rt: &R, out: &mut String, verb: &str, words: &str) {
    let (path, behind) = cut_at(words, " ");
    let path = path_of(rt, path);
    match verb {
        "action" => tell_action(rt, out, &path, behind),
        "excluded" => says(rt, out, "", &excluded(&path)),
        _ => tell_relation(rt, out, is_relation_file(&path)),
    }
}
