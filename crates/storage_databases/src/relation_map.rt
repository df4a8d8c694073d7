// Relation maps.
ghost use Rattle.std.specs.Prelude.{◌≡◌, ◌≢◌, ◌≤◌, ◌<◌, ℕ, false, length, IsTrue, Err, IsErrOf, IfOk, is_some};
ghost use Rattle.block_refs.specs.Parts.{ArePartsOf};
ghost use Rattle.cluster_tree.specs.PathValue.{PathValue, Holds, below};
ghost use Rattle.cluster_tree.specs.Causes.{Rose};
ghost use Rattle.cluster_tree.specs.Frame.{Came};
ghost use Rattle.file_edits.specs.Answers.{Does};
ghost use Rattle.file_edits.specs.Edits.{file_edited, on_way};
ghost use Rattle.file_edits.specs.Own.{OnOwn};
ghost use Rattle.file_edits.specs.Sparing.{Piece, Spares};
ghost use Rattle.cluster_tree.specs.PathOrder.{path_eq};
ghost use Rattle.storage_databases.specs.RelationMap.{is_of_map, map_file, map_parts, map_written, update_in};

use block_refs::Parts;
use cluster_tree::{FileFault, OutOfMemory, Path, Tree};
use file_edits::{lay, shorten};
use record_layouts::RelMapUpdate;
use relation_files::database_folder;
use std::alloc::Global;
use wal_records::Record;

// The folder of a map: the shared one lies in `global`.
fn map_folder(alloc: Global, root: &Path, database: u32) -> Result<Path, OutOfMemory>
    requires room { length root.now.parts ≤ 61 }
    ensures value { IfOk result (λ folder. folder ≡ below root.now (map_parts database)) }
{
    if database == 0 {
        root.below(alloc, "global")
    } else {
        database_folder(alloc, root, database)
    }
}

// The file of a map.
fn map_file(alloc: Global, root: &Path, database: u32) -> Result<Path, OutOfMemory>
    requires room { length root.now.parts ≤ 61 }
    ensures value { IfOk result (λ path. path ≡ map_file root.now database) }
    ensures held { IfOk result (λ path. Holds root.now path) }
    ensures deeper { IfOk result (λ path. length root.now.parts < length path.parts) }
{
    let folder = map_folder(alloc, root, database)?;
    folder.below(alloc, "pg_filenode.map")
}

// Makes a file of these bytes alone.
fn write_whole<F: Tree>(
    alloc: Global,
    tree: &mut F,
    root: &Path,
    path: &Path,
    bytes: &[u8],
) -> Result<(), FileFault>
    requires held { Holds root.now path.now }
    requires deeper { length root.now.parts < length path.now.parts }
    ensures exact { IsTrue F.tells → Does (file_edited root.now path.now (λ _. bytes.now)
        (F.contents tree.old)) (F.contents tree.new) result }
    ensures frame { Came F.Tree tree.old tree.new }
    ensures own { IsTrue F.tells → OnOwn F.calls (on_way root.now path.now) tree.old tree.new }
    ensures spares { IsTrue F.tells → (piece : Piece) → path_eq piece.path path.now ≡ false →
        Spares F.Tree piece tree.old tree.new }
    ensures read_fault { IsErrOf result FileFault.ReadFault →
        Rose (F.failed_reads tree.old) (F.failed_reads tree.new) }
    ensures write_fault { IsErrOf result FileFault.WriteFault →
        Rose (F.failed_changes tree.old) (F.failed_changes tree.new) }
    ensures changed { IsTrue F.tells → (p : PathValue) → result ≢ Err (FileFault.Changed p) }
{
    lay(alloc, tree, root, path, 0, 0, bytes)?;
    shorten(alloc, tree, path, bytes.len() as u64)
}

// Makes a database's map of these bytes.
fn write_map<F: Tree>(
    alloc: Global,
    tree: &mut F,
    root: &Path,
    database: u32,
    bytes: &[u8],
) -> Result<(), FileFault>
    requires room { length root.now.parts ≤ 61 }
    ensures exact { IsTrue F.tells → Does (file_edited root.now (map_file root.now database)
        (λ _. bytes.now) (F.contents tree.old)) (F.contents tree.new) result }
    ensures frame { Came F.Tree tree.old tree.new }
    ensures own { IsTrue F.tells →
        OnOwn F.calls (on_way root.now (map_file root.now database)) tree.old tree.new }
    ensures spares { IsTrue F.tells → (piece : Piece) →
        path_eq piece.path (map_file root.now database) ≡ false →
        Spares F.Tree piece tree.old tree.new }
    ensures read_fault { IsErrOf result FileFault.ReadFault →
        Rose (F.failed_reads tree.old) (F.failed_reads tree.new) }
    ensures write_fault { IsErrOf result FileFault.WriteFault →
        Rose (F.failed_changes tree.old) (F.failed_changes tree.new) }
    ensures changed { IsTrue F.tells → (p : PathValue) → result ≢ Err (FileFault.Changed p) }
{
    let path = map_file(alloc, root, database)?;
    write_whole(alloc, tree, root, &path, bytes)
}

/// Writes the relation map that a record holds (UPDATE of RelMap): the file `pg_filenode.map` of
/// `global` (database 0) or of a database's folder becomes the record's bytes; it and the folders on
/// its way are made where nothing stands. The parts have to be those of the record. Tells whether the
/// record's layout is whole: where it is short, nothing is changed.
///
/// Answers `IsFolder` or `Link` with the file's path, and `NotFolder` or `Link` with that of a folder
/// on its way which would have to be made or gone through for that, the root first.
pub fn write_relation_map<F: Tree>(
    alloc: Global,
    tree: &mut F,
    root: &Path,
    rec: &Record,
    parts: &Parts,
) -> Result<bool, FileFault>
    requires room { length root.now.parts ≤ 61 }
    requires parts { ArePartsOf rec.now parts.now }
    ensures exact { IsTrue F.tells → Does (map_written root.now (update_in rec.now parts.now)
        (F.contents tree.old)) (F.contents tree.new) result }
    ensures whole { IfOk result (λ whole. whole ≡ is_some (update_in rec.now parts.now)) }
    ensures frame { Came F.Tree tree.old tree.new }
    ensures own { IsTrue F.tells →
        OnOwn F.calls (is_of_map root.now (update_in rec.now parts.now)) tree.old tree.new }
    ensures spares { IsTrue F.tells → (piece : Piece) →
        ((database : ℕ) → path_eq piece.path (map_file root.now database) ≡ false) →
        Spares F.Tree piece tree.old tree.new }
    ensures read_fault { IsErrOf result FileFault.ReadFault →
        Rose (F.failed_reads tree.old) (F.failed_reads tree.new) }
    ensures write_fault { IsErrOf result FileFault.WriteFault →
        Rose (F.failed_changes tree.old) (F.failed_changes tree.new) }
    ensures changed { IsTrue F.tells → (p : PathValue) → result ≢ Err (FileFault.Changed p) }
{
    match RelMapUpdate::read(parts.main_bytes(rec)) {
        None => Ok(false),
        Some(update) => {
            write_map(alloc, tree, root, update.database, update.map.slice())?;
            Ok(true)
        }
    }
}
