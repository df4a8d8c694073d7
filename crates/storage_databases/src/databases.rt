// The folders of databases.
ghost use Rattle.std.specs.Prelude.{◌≡◌, ◌≢◌, ◌≤◌, ◌<◌, false, length, IsTrue, Err, IsErrOf, IfOk};
ghost use Rattle.cluster_tree.specs.Apart.{is_held};
ghost use Rattle.cluster_tree.specs.PathValue.{PathValue, Holds};
ghost use Rattle.cluster_tree.specs.Causes.{Rose};
ghost use Rattle.cluster_tree.specs.Frame.{Came};
ghost use Rattle.file_edits.specs.Answers.{Does};
ghost use Rattle.file_edits.specs.Edits.{on_way};
ghost use Rattle.file_edits.specs.Own.{OnOwn};
ghost use Rattle.file_edits.specs.Sparing.{Piece, Spares};
ghost use Rattle.cluster_tree.specs.PathOrder.{path_eq};
ghost use Rattle.storage_databases.specs.Databases.{database_dropped, database_folder, database_made, version_file};

use cluster_tree::{FileFault, OutOfMemory, Path, Tree};
use file_edits::{file_size, lay, remove_tree};
use relation_files::database_folder;
use std::alloc::Global;

// The file that tells a database's version.
fn version_file(alloc: Global, root: &Path, database: u32) -> Result<Path, OutOfMemory>
    requires room { length root.now.parts ≤ 61 }
    ensures value { IfOk result (λ path. path ≡ version_file root.now database) }
    ensures held { IfOk result (λ path. Holds root.now path) }
    ensures deeper { IfOk result (λ path. length root.now.parts < length path.parts) }
{
    let folder = database_folder(alloc, root, database)?;
    folder.below(alloc, "PG_VERSION")
}

/// Makes the folder of a database and in it `PG_VERSION` with `16` and a newline, where that file
/// isn't there.
///
/// Answers `IsFolder` or `Link` with that file's path, and `NotFolder` or `Link` with that of a folder
/// on its way, the root first.
pub fn make_database<F: Tree>(
    alloc: Global,
    tree: &mut F,
    root: &Path,
    database: u32,
) -> Result<(), FileFault>
    requires room { length root.now.parts ≤ 61 }
    ensures exact { IsTrue F.tells →
        Does (database_made root.now database (F.contents tree.old)) (F.contents tree.new) result }
    ensures frame { Came F.Tree tree.old tree.new }
    ensures own { IsTrue F.tells →
        OnOwn F.calls (on_way root.now (version_file root.now database)) tree.old tree.new }
    ensures spares { IsTrue F.tells → (piece : Piece) →
        path_eq piece.path (version_file root.now database) ≡ false →
        Spares F.Tree piece tree.old tree.new }
    ensures read_fault { IsErrOf result FileFault.ReadFault →
        Rose (F.failed_reads tree.old) (F.failed_reads tree.new) }
    ensures write_fault { IsErrOf result FileFault.WriteFault →
        Rose (F.failed_changes tree.old) (F.failed_changes tree.new) }
    ensures changed { IsTrue F.tells → (p : PathValue) → result ≢ Err (FileFault.Changed p) }
{
    let path = version_file(alloc, root, database)?;
    let found = file_size(alloc, tree, &path)?;
    match found {
        Some(_) => Ok(()),
        None => lay(alloc, tree, root, &path, 0, 0, b"16\n"),
    }
}

/// Removes the folder of a database with all that it holds, where one stands.
///
/// Answers `NotFolder` or `Link` with the folder's path where it is something else, and as
/// `remove_tree` of what it holds.
pub fn drop_database<F: Tree>(
    alloc: Global,
    tree: &mut F,
    root: &Path,
    database: u32,
) -> Result<(), FileFault>
    requires room { length root.now.parts ≤ 61 }
    ensures exact { IsTrue F.tells → Does (database_dropped root.now database (F.contents tree.old))
        (F.contents tree.new) result }
    ensures frame { Came F.Tree tree.old tree.new }
    ensures own { IsTrue F.tells →
        OnOwn F.calls (is_held (database_folder root.now database)) tree.old tree.new }
    ensures read_fault { IsErrOf result FileFault.ReadFault →
        Rose (F.failed_reads tree.old) (F.failed_reads tree.new) }
    ensures write_fault { IsErrOf result FileFault.WriteFault →
        Rose (F.failed_changes tree.old) (F.failed_changes tree.new) }
    ensures changed { IsTrue F.tells → (p : PathValue) → result ≢ Err (FileFault.Changed p) }
{
    let folder = database_folder(alloc, root, database)?;
    remove_tree(alloc, tree, &folder)
}
