// Changing calls carried out again, with the byte A5 in place of what was written.
ghost use Rattle.std.specs.Prelude.{◌≡◌, OnOk, fold, replicate};
ghost use Rattle.cluster_tree.specs.Change.{Writes};
ghost use Rattle.memory_tree.specs.Fakes.{contents_in};
ghost use Rattle.memory_tree.specs.Image.{Tried, filling, filled_by};

use crate::MemoryTree;
use cluster_tree::{ChangeCall, OutOfMemory, Path, Tree, TreeFault};
use std::alloc::Global;

const FILLER: u8 = 0xa5;

// Tries to write the filler all over a range.
fn fill(
    alloc: Global,
    tree: &mut MemoryTree,
    path: &Path,
    at: u64,
    size: u64,
) -> Result<(), TreeFault>
    ensures { Tried (Writes path.now at (replicate size 0xa5)) (contents_in tree.old)
        (contents_in tree.new) result }
{
    let mut bytes = Vec::new(alloc);
    if let Err(_) = bytes.resize(size as usize, FILLER) {
        return Err(TreeFault::OutOfMemory);
    }
    tree.write_at(path, at, &bytes)
}

// Tries a call.
fn try_one(alloc: Global, tree: &mut MemoryTree, call: &ChangeCall) -> Result<(), TreeFault>
    ensures { Tried (filling call.now) (contents_in tree.old) (contents_in tree.new) result }
{
    match call {
        ChangeCall::Write(path, at, size) => fill(alloc, tree, path, *at, *size),
        ChangeCall::Cut(path, size) => tree.cut(path, *size),
        ChangeCall::MakeFile(path) => tree.make_file(path),
        ChangeCall::MakeFolder(path) => tree.make_folder(path),
        ChangeCall::Remove(path) => tree.remove(path),
        ChangeCall::Sync => Ok(()),
    }
}

// Carries out a call, where it isn't refused.
fn fill_one(alloc: Global, tree: &mut MemoryTree, call: &ChangeCall) -> Result<(), OutOfMemory>
    ensures { OnOk result (contents_in tree.new ≡ filled_by (contents_in tree.old) call.now) }
{
    match try_one(alloc, tree, call) {
        Err(TreeFault::Failed) | Err(TreeFault::OutOfMemory) => Err(OutOfMemory),
        _ => Ok(()),
    }
}

/// Carries out these calls in turn, each where it isn't refused.
pub(crate) fn fill_all(
    alloc: Global,
    tree: &mut MemoryTree,
    calls: &[ChangeCall],
) -> Result<(), OutOfMemory>
    ensures { OnOk result
        (contents_in tree.new ≡ fold filled_by (contents_in tree.old) calls.now) }
{
    for call in calls {
        fill_one(alloc, tree, call)?;
    }
    Ok(())
}
