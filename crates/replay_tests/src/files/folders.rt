// The calls of storage_databases, and what each answers.
ghost use Rattle.std.specs.Prelude.{◌≤◌, length};

use crate::fault::RowFault;
use crate::files::answers::{ended, whole};
use crate::logs::main_cursor;
use crate::texts::{cut_at, number};
use block_refs::split_record;
use cluster_tree::{Path, Tree};
use std::alloc::Global;
use storage_databases::{drop_database, make_database, write_relation_map};

// A relation map by the main bytes of its record.
fn map<F: Tree>(alloc: Global, tree: &mut F, root: &Path, digits: &str) -> Result<String, RowFault>
    requires room { length root.now.parts ≤ 61 }
{
    let cursor = main_cursor(alloc, 7, 0, digits)?;
    let rec = cursor.current().ok_or(RowFault::NotARecord)?;
    let parts = split_record(rec)?;
    whole(alloc, write_relation_map(alloc, tree, root, rec, &parts))
}

/// What a call on the cluster at a root answers.
pub(crate) fn answer_folder<F: Tree>(
    alloc: Global,
    tree: &mut F,
    root: &Path,
    call: &str,
) -> Result<String, RowFault>
    requires room { length root.now.parts ≤ 61 }
{
    let (verb, words) = cut_at(call, " ");
    match verb {
        "make" => ended(alloc, make_database(alloc, tree, root, number(words)?)),
        "drop" => ended(alloc, drop_database(alloc, tree, root, number(words)?)),
        "map" => map(alloc, tree, root, words),
        _ => Err(RowFault::NotACall),
    }
}
