// What a rewind doesn't copy.
ghost use Rattle.std.specs.Prelude.{◌≡◌, bytes_eq};
ghost use Rattle.std.specs.List.{list_any};
ghost use Rattle.file_walk.specs.Excluded.{is_emptied, is_excluded, is_inside, is_own_file, is_own_name};

use cluster_tree::Path;

// Whether a name is one of the folders at the root whose contents belong to a running server.
fn is_emptied(name: &str) -> bool
    ensures { result ≡ is_emptied name.now }
{
    name == "pg_stat_tmp"
        || name == "pg_replslot"
        || name == "pg_dynshmem"
        || name == "pg_notify"
        || name == "pg_serial"
        || name == "pg_snapshots"
        || name == "pg_subtrans"
}

// Whether a name is that of a file of the cluster's own.
fn is_own_file(name: &str) -> bool
    ensures { result ≡ is_own_file name.now }
{
    name == "postgresql.auto.conf.tmp"
        || name == "current_logfiles.tmp"
        || name == "backup_label"
        || name == "tablespace_map"
        || name == "backup_manifest"
        || name == "postmaster.pid"
        || name == "postmaster.opts"
}

// Whether it is, or is a cache's, behind whose name a number may stand.
fn is_own_name(name: &str) -> bool
    ensures { result ≡ is_own_name name.now }
{
    is_own_file(name) || name.as_bytes().starts_with(b"pg_internal.init")
}

// Whether a path lies inside such a folder.
fn is_inside(path: &Path) -> bool
    ensures { result ≡ is_inside path.now.parts }
{
    match path.part(0) {
        Some(first) => path.len() > 1 && is_emptied(first),
        None => false,
    }
}

// Whether a part of a path is such a name.
fn has_own_name(path: &Path) -> bool
    ensures { result ≡ list_any is_own_name path.now.parts }
{
    for at in 0..path.len() {
        if let Some(part) = path.part(at) {
            if is_own_name(part) {
                return true;
            }
        }
    }
    false
}

/// Whether a rewind leaves out this path, from a root on, and removes it from the target: it lies
/// inside `pg_stat_tmp`, `pg_replslot`, `pg_dynshmem`, `pg_notify`, `pg_serial`, `pg_snapshots` or
/// `pg_subtrans` at the root, or it or a folder on the way to it is named as a file of a cluster's
/// own, such as `backup_label`, `postmaster.pid` or `pg_internal.init.12`.
#[tactic(auto, unfolding(crate::specs::Excluded::is_excluded))]
pub fn excluded(path: &Path) -> bool
    ensures value { result ≡ is_excluded path.now }
{
    is_inside(path) || has_own_name(path)
}
