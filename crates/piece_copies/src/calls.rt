// The changing calls, each at its own path, where nothing is to refuse them.
ghost use Rattle.std.specs.Prelude.{◌≡◌, ◌≢◌, ◌⊎◌, [], false, true, length, None, IsTrue, Ok, Err, IsErrOf, OnOk, IfErr};
ghost use Rattle.std.specs.FinMap.{insert};
ghost use Rattle.cluster_tree.specs.PathOrder.{path_eq};
ghost use Rattle.cluster_tree.specs.Contents.{FileEntry, FolderEntry};
ghost use Rattle.cluster_tree.specs.Tree.{cut_refusal, make_refusal, shortened, write_refusal, written};
ghost use Rattle.cluster_tree.specs.Causes.{Rose};
ghost use Rattle.cluster_tree.specs.Frame.{Came};
ghost use Rattle.file_edits.specs.Answers.{Does};
ghost use Rattle.file_edits.specs.Own.{OnOwn};
ghost use Rattle.file_edits.specs.Sparing.{Piece, Spares, spares};

use cluster_tree::{ChangeCall, FileFault, Path, Tree, TreeFault};
use std::alloc::Global;

// The answer of a changing call that nothing was to refuse: a refusal contradicts what was asked.
fn settled(alloc: Global, path: &Path, done: Result<(), TreeFault>) -> Result<(), FileFault>
    ensures ok { OnOk done (result ≡ Ok tt) }
    ensures failed { done ≡ Err TreeFault.Failed → result ≡ Err FileFault.WriteFault }
    ensures refused { IfErr done (λ f. (f ≡ TreeFault.Failed) ⊎
        (result ≡ Err (FileFault.Changed path.now)) ⊎ (result ≡ Err FileFault.OutOfMemory)) }
{
    match done {
        Ok(()) => Ok(()),
        Err(TreeFault::Failed) => Err(FileFault::WriteFault),
        Err(_) => Err(FileFault::Changed(path.copy(alloc)?)),
    }
}

/// Makes an empty folder. Answers `WriteFault` where the device fails, `Changed` where the tree refuses
/// it, and `OutOfMemory` in place of that where memory is wanting.
pub fn make_folder<F: Tree>(alloc: Global, tree: &mut F, path: &Path) -> Result<(), FileFault>
    ensures exact { IsTrue F.tells → make_refusal (F.contents tree.old) path.now ≡ None →
        Does (Ok (insert (F.contents tree.old) path.now (FolderEntry false))) (F.contents tree.new)
        result }
    ensures frame { Came F.Tree tree.old tree.new }
    ensures own { IsTrue F.tells →
        OnOwn F.calls (λ q. path_eq q path.now) tree.old tree.new }
    ensures spares { IsTrue F.tells → (piece : Piece) → Spares F.Tree piece tree.old tree.new }
    ensures read_fault { result ≢ Err FileFault.ReadFault }
    ensures write_fault { IsErrOf result FileFault.WriteFault →
        Rose (F.failed_changes tree.old) (F.failed_changes tree.new) }
{
    let done = tree.make_folder(path);
    settled(alloc, path, done)
}

/// Makes an empty file. Answers as `make_folder`.
pub fn make_file<F: Tree>(alloc: Global, tree: &mut F, path: &Path) -> Result<(), FileFault>
    ensures exact { IsTrue F.tells → make_refusal (F.contents tree.old) path.now ≡ None →
        Does (Ok (insert (F.contents tree.old) path.now (FileEntry []))) (F.contents tree.new)
        result }
    ensures frame { Came F.Tree tree.old tree.new }
    ensures own { IsTrue F.tells →
        OnOwn F.calls (λ q. path_eq q path.now) tree.old tree.new }
    ensures spares { IsTrue F.tells → (piece : Piece) → Spares F.Tree piece tree.old tree.new }
    ensures read_fault { result ≢ Err FileFault.ReadFault }
    ensures write_fault { IsErrOf result FileFault.WriteFault →
        Rose (F.failed_changes tree.old) (F.failed_changes tree.new) }
{
    let done = tree.make_file(path);
    settled(alloc, path, done)
}

/// Writes bytes into a file from the offset `at` on. Answers as `make_folder`.
pub fn write<F: Tree>(
    alloc: Global,
    tree: &mut F,
    path: &Path,
    at: u64,
    bytes: &[u8],
) -> Result<(), FileFault>
    ensures exact { IsTrue F.tells → write_refusal (F.contents tree.old) path.now at ≡ None →
        Does (Ok (written (F.contents tree.old) path.now at bytes.now)) (F.contents tree.new)
        result }
    ensures frame { Came F.Tree tree.old tree.new }
    ensures own { IsTrue F.tells →
        OnOwn F.calls (λ q. path_eq q path.now) tree.old tree.new }
    ensures spares { IsTrue F.tells → (piece : Piece) →
        spares piece (ChangeCall.Write path.now at (length bytes.now)) ≡ true →
        Spares F.Tree piece tree.old tree.new }
    ensures read_fault { result ≢ Err FileFault.ReadFault }
    ensures write_fault { IsErrOf result FileFault.WriteFault →
        Rose (F.failed_changes tree.old) (F.failed_changes tree.new) }
{
    let done = tree.write_at(path, at, bytes);
    settled(alloc, path, done)
}

/// Cuts a file to a size in bytes. Answers as `make_folder`.
pub fn cut<F: Tree>(alloc: Global, tree: &mut F, path: &Path, size: u64) -> Result<(), FileFault>
    ensures exact { IsTrue F.tells → cut_refusal (F.contents tree.old) path.now size ≡ None →
        Does (Ok (shortened (F.contents tree.old) path.now size)) (F.contents tree.new) result }
    ensures frame { Came F.Tree tree.old tree.new }
    ensures own { IsTrue F.tells →
        OnOwn F.calls (λ q. path_eq q path.now) tree.old tree.new }
    ensures spares { IsTrue F.tells → (piece : Piece) →
        spares piece (ChangeCall.Cut path.now size) ≡ true → Spares F.Tree piece tree.old tree.new }
    ensures read_fault { result ≢ Err FileFault.ReadFault }
    ensures write_fault { IsErrOf result FileFault.WriteFault →
        Rose (F.failed_changes tree.old) (F.failed_changes tree.new) }
{
    let done = tree.cut(path, size);
    settled(alloc, path, done)
}
