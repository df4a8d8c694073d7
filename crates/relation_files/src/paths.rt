// Where the files of relations lie.
ghost use Rattle.std.specs.Prelude.{◌≡◌, ◌≤◌, ◌<◌, length, string_bytes, decimal, IfOk};
ghost use Rattle.cluster_tree.specs.PathValue.{Holds, below};
ghost use Rattle.relation_files.specs.Names.{file_name};
ghost use Rattle.relation_files.specs.Paths.{database_parts, relation_file, relation_folder};

use crate::file_name::FileName;
use block_refs::{Fork, RelName};
use cluster_tree::{OutOfMemory, Path};
use std::alloc::Global;

/// The tablespace of shared relations (pg_global).
const GLOBAL: u32 = 1664;

/// The folder of a database in the default tablespace, below a cluster's root: `base/5`.
pub fn database_folder(alloc: Global, root: &Path, database: u32) -> Result<Path, OutOfMemory>
    requires room { length root.now.parts ≤ 61 }
    ensures value { IfOk result (λ folder. folder ≡ below root.now (database_parts database)) }
{
    let base = root.below(alloc, "base")?;
    let number = format!(in alloc; "{database}")?;
    let folder = base.below(alloc, &number)?;
    Ok(folder)
}

/// The folder of a relation below a cluster's root: `global` of a shared one, and else that of its
/// database.
pub fn relation_folder(alloc: Global, root: &Path, rel: RelName) -> Result<Path, OutOfMemory>
    requires room { length root.now.parts ≤ 61 }
    ensures value { IfOk result (λ folder. folder ≡ relation_folder root.now rel) }
{
    if rel.space == GLOBAL {
        root.below(alloc, "global")
    } else {
        database_folder(alloc, root, rel.database)
    }
}

/// A file of a relation below a cluster's root: `base/5/16384.1`.
pub fn relation_file(
    alloc: Global,
    root: &Path,
    rel: RelName,
    fork: Fork,
    segment: u32,
) -> Result<Path, OutOfMemory>
    requires room { length root.now.parts ≤ 61 }
    ensures value { IfOk result (λ path. path ≡ relation_file root.now rel fork segment) }
    ensures held { IfOk result (λ path. Holds root.now path) }
    ensures deeper { IfOk result (λ path. length root.now.parts < length path.parts) }
{
    let folder = relation_folder(alloc, root, rel)?;
    let file = FileName {
        relation: rel.relation,
        fork,
        segment,
    };
    let name = format!(in alloc; "{file}")?;
    let path = folder.below(alloc, &name)?;
    Ok(path)
}
