// The steps of a rewind, carried out one after another.
ghost use Rattle.std.specs.Prelude.{◌≡◌, ◌≢◌, ◌+◌, ◌<◌, ◌^◌, ℕ, List, [], ◌∷◌, false, true, length, Err, IsErrOf};
ghost use Rattle.cluster_tree.specs.Causes.{Rose};
ghost use Rattle.cluster_tree.specs.Change.{Cuts, MakesFolder, Removes};
ghost use Rattle.cluster_tree.specs.Contents.{Contents};
ghost use Rattle.cluster_tree.specs.Frame.{Came};
ghost use Rattle.marked_runs.specs.Performed.{Performs};
ghost use Rattle.rewind_writes.specs.Steps.{AllAreFit, IsFit};
ghost use Rattle.rewind_writes.specs.Taken.{Takes, TakesAll};
ghost use Rattle.rewind_writes.specs.declared.step.Step.TheVariants as step;

use crate::Step;
use crate::copying::{copy_range, open_file};
use cluster_tree::{Path, Tree};
use marked_runs::{PerformFault, StepFault, about, cut_file, make_folder, remove_entry};
use std::collections::VecDeque;

// The bytes of a piece.
const PIECE: usize = 65536;

// Makes a folder.
fn make_one<F: Tree>(tree: &mut F, path: Path) -> Result<(), PerformFault>
    ensures performs { Performs F.Tree (MakesFolder path ∷ []) tree.old tree.new result }
    ensures frame { Came F.Tree tree.old tree.new }
    ensures read_fault { result ≢ Err PerformFault.ReadFault }
    ensures write_fault { IsErrOf result PerformFault.WriteFault →
        Rose (F.failed_changes tree.old) (F.failed_changes tree.new) }
{
    match make_folder(tree, &path) {
        Ok(()) => Ok(()),
        Err(fault) => Err(about(fault, path)),
    }
}

// Cuts a file to a size.
fn cut_one<F: Tree>(tree: &mut F, path: Path, size: u64) -> Result<(), PerformFault>
    ensures performs { Performs F.Tree (Cuts path size ∷ []) tree.old tree.new result }
    ensures frame { Came F.Tree tree.old tree.new }
    ensures read_fault { result ≢ Err PerformFault.ReadFault }
    ensures write_fault { IsErrOf result PerformFault.WriteFault →
        Rose (F.failed_changes tree.old) (F.failed_changes tree.new) }
{
    match cut_file(tree, &path, size) {
        Ok(()) => Ok(()),
        Err(fault) => Err(about(fault, path)),
    }
}

// Removes an entry.
fn remove_one<F: Tree>(tree: &mut F, path: Path) -> Result<(), PerformFault>
    ensures performs { Performs F.Tree (Removes path ∷ []) tree.old tree.new result }
    ensures frame { Came F.Tree tree.old tree.new }
    ensures read_fault { result ≢ Err PerformFault.ReadFault }
    ensures write_fault { IsErrOf result PerformFault.WriteFault →
        Rose (F.failed_changes tree.old) (F.failed_changes tree.new) }
{
    match remove_entry(tree, &path) {
        Ok(()) => Ok(()),
        Err(fault) => Err(about(fault, path)),
    }
}

// Copies a range.
fn copy_one<F: Tree>(
    tree: &mut F,
    from: &Path,
    to: Path,
    at: u64,
    size: u64,
    buffer: &mut [u8],
) -> Result<(), PerformFault>
    requires fit { at + size < 2 ^ 64 }
    requires some { 0 < length buffer.old }
    ensures takes { (c : Contents) →
        Takes F.Tree c (step.Range from.now to at size) tree.old tree.new result }
    ensures frame { Came F.Tree tree.old tree.new }
    ensures read_fault { IsErrOf result PerformFault.ReadFault →
        Rose (F.failed_reads tree.old) (F.failed_reads tree.new) }
    ensures write_fault { IsErrOf result PerformFault.WriteFault →
        Rose (F.failed_changes tree.old) (F.failed_changes tree.new) }
{
    match copy_range(tree, from, &to, at, size, buffer) {
        Ok(()) => Ok(()),
        Err(fault) => Err(about(fault, to)),
    }
}

// Copies a whole file.
fn copy_whole<F: Tree>(
    tree: &mut F,
    from: &Path,
    to: Path,
    size: u64,
    buffer: &mut [u8],
) -> Result<(), PerformFault>
    requires some { 0 < length buffer.old }
    ensures takes { (c : Contents) →
        Takes F.Tree c (step.Whole from.now to size) tree.old tree.new result }
    ensures frame { Came F.Tree tree.old tree.new }
    ensures read_fault { IsErrOf result PerformFault.ReadFault →
        Rose (F.failed_reads tree.old) (F.failed_reads tree.new) }
    ensures write_fault { IsErrOf result PerformFault.WriteFault →
        Rose (F.failed_changes tree.old) (F.failed_changes tree.new) }
{
    match open_file(tree, &to) {
        Ok(()) => copy_one(tree, from, to, 0, size, buffer),
        Err(fault) => Err(about(fault, to)),
    }
}

// Carries out one step.
fn take<F: Tree>(tree: &mut F, step: Step, buffer: &mut [u8]) -> Result<(), PerformFault>
    requires fit { IsFit step }
    requires some { 0 < length buffer.old }
    ensures takes { (c : Contents) → Takes F.Tree c step tree.old tree.new result }
    ensures frame { Came F.Tree tree.old tree.new }
    ensures read_fault { IsErrOf result PerformFault.ReadFault →
        Rose (F.failed_reads tree.old) (F.failed_reads tree.new) }
    ensures write_fault { IsErrOf result PerformFault.WriteFault →
        Rose (F.failed_changes tree.old) (F.failed_changes tree.new) }
{
    match step {
        Step::Folder(path) => make_one(tree, path),
        Step::Whole { from, to, size } => copy_whole(tree, &from, to, size, buffer),
        Step::Cut(path, size) => cut_one(tree, path, size),
        Step::Range { from, to, at, size } => copy_one(tree, &from, to, at, size, buffer),
        Step::Remove(path) => remove_one(tree, path),
    }
}

/// Carries out steps one after another, by pieces of at most 65536 bytes. Answers `ReadFault` where a
/// read failed, `WriteFault` where a changing call did, and `Changed` where the tree refuses one.
pub(crate) fn take_all<F: Tree>(tree: &mut F, mut steps: VecDeque<Step>) -> Result<(), PerformFault>
    requires fit { AllAreFit steps.items }
    ensures takes { (c : Contents) → TakesAll F.Tree c steps.items tree.old tree.new result }
    ensures frame { Came F.Tree tree.old tree.new }
    ensures read_fault { IsErrOf result PerformFault.ReadFault →
        Rose (F.failed_reads tree.old) (F.failed_reads tree.new) }
    ensures write_fault { IsErrOf result PerformFault.WriteFault →
        Rose (F.failed_changes tree.old) (F.failed_changes tree.new) }
{
    let mut buffer = [0; PIECE];
    while let Some(step) = steps.pop_front() {
        match take(tree, step, &mut buffer) {
            Ok(()) => (),
            Err(fault) => return Err(fault),
        }
    }
    Ok(())
}
