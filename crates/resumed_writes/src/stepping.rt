// The steps of a rewind, done again one after another.
ghost use Rattle.std.specs.Prelude.{◌≡◌, ◌+◌, ◌<◌, ◌^◌, length, IsErrOf};
ghost use Rattle.cluster_tree.specs.Causes.{Rose};
ghost use Rattle.cluster_tree.specs.Frame.{Came};
ghost use Rattle.rewind_writes.specs.Steps.{AllAreFit, IsFit};
ghost use Rattle.rewind_writes.specs.declared.step.Step.TheVariants as step;
ghost use Rattle.resumed_writes.specs.Again.{TakesAgain, TakesAllAgain};

use crate::StoredPerformFault;
use crate::changing::{cut_file, make_missing, open_again, remove_present};
use crate::faults::{at_source, at_target};
use crate::looks::reaches;
use cluster_tree::{Path, Tree};
use rewind_writes::{Step, copy_range};
use std::collections::VecDeque;

// The bytes of a piece.
const PIECE: usize = 65536;

// Copies a range of at least one byte onto a file, which has to reach to its start.
fn copy_onto<F: Tree>(
    tree: &mut F,
    from: Path,
    to: Path,
    at: u64,
    size: u64,
    buffer: &mut [u8],
) -> Result<(), StoredPerformFault>
    requires fit { at + size < 2 ^ 64 }
    requires long { 0 < size }
    requires some { 0 < length buffer.old }
    ensures takes { TakesAgain F.Tree (step.Range from to at size) tree.old tree.new result }
    ensures frame { Came F.Tree tree.old tree.new }
    ensures read_fault { IsErrOf result StoredPerformFault.ReadFault →
        Rose (F.failed_reads tree.old) (F.failed_reads tree.new) }
    ensures write_fault { IsErrOf result StoredPerformFault.WriteFault →
        Rose (F.failed_changes tree.old) (F.failed_changes tree.new) }
{
    match reaches(tree, &to, at) {
        Ok(true) => match copy_range(tree, &from, &to, at, size, buffer) {
            Ok(()) => Ok(()),
            Err(fault) => Err(at_source(fault, from)),
        },
        Ok(false) => Err(StoredPerformFault::TargetDiffers(to)),
        Err(fault) => Err(at_source(fault, from)),
    }
}

// Copies a range, which may have no byte.
fn copy_some<F: Tree>(
    tree: &mut F,
    from: Path,
    to: Path,
    at: u64,
    size: u64,
    buffer: &mut [u8],
) -> Result<(), StoredPerformFault>
    requires fit { at + size < 2 ^ 64 }
    requires some { 0 < length buffer.old }
    ensures takes { TakesAgain F.Tree (step.Range from to at size) tree.old tree.new result }
    ensures frame { Came F.Tree tree.old tree.new }
    ensures read_fault { IsErrOf result StoredPerformFault.ReadFault →
        Rose (F.failed_reads tree.old) (F.failed_reads tree.new) }
    ensures write_fault { IsErrOf result StoredPerformFault.WriteFault →
        Rose (F.failed_changes tree.old) (F.failed_changes tree.new) }
{
    match size {
        0 => Ok(()),
        _ => copy_onto(tree, from, to, at, size, buffer),
    }
}

// Copies a range of a file that has to have it.
fn copy_one<F: Tree>(
    tree: &mut F,
    from: Path,
    to: Path,
    at: u64,
    size: u64,
    buffer: &mut [u8],
) -> Result<(), StoredPerformFault>
    requires fit { at + size < 2 ^ 64 }
    requires some { 0 < length buffer.old }
    ensures takes { TakesAgain F.Tree (step.Range from to at size) tree.old tree.new result }
    ensures frame { Came F.Tree tree.old tree.new }
    ensures read_fault { IsErrOf result StoredPerformFault.ReadFault →
        Rose (F.failed_reads tree.old) (F.failed_reads tree.new) }
    ensures write_fault { IsErrOf result StoredPerformFault.WriteFault →
        Rose (F.failed_changes tree.old) (F.failed_changes tree.new) }
{
    match reaches(tree, &from, at + size) {
        Ok(true) => copy_some(tree, from, to, at, size, buffer),
        Ok(false) => Err(StoredPerformFault::Changed(from)),
        Err(fault) => Err(at_source(fault, from)),
    }
}

// Empties or makes a file, and copies another one into it.
fn open_and_copy<F: Tree>(
    tree: &mut F,
    from: Path,
    to: Path,
    size: u64,
    buffer: &mut [u8],
) -> Result<(), StoredPerformFault>
    requires some { 0 < length buffer.old }
    ensures takes { TakesAgain F.Tree (step.Whole from to size) tree.old tree.new result }
    ensures frame { Came F.Tree tree.old tree.new }
    ensures read_fault { IsErrOf result StoredPerformFault.ReadFault →
        Rose (F.failed_reads tree.old) (F.failed_reads tree.new) }
    ensures write_fault { IsErrOf result StoredPerformFault.WriteFault →
        Rose (F.failed_changes tree.old) (F.failed_changes tree.new) }
{
    match open_again(tree, &to) {
        Ok(()) => copy_some(tree, from, to, 0, size, buffer),
        Err(fault) => at_target(Err(fault), to),
    }
}

// Copies a whole file, which has to have so many bytes.
fn copy_whole<F: Tree>(
    tree: &mut F,
    from: Path,
    to: Path,
    size: u64,
    buffer: &mut [u8],
) -> Result<(), StoredPerformFault>
    requires some { 0 < length buffer.old }
    ensures takes { TakesAgain F.Tree (step.Whole from to size) tree.old tree.new result }
    ensures frame { Came F.Tree tree.old tree.new }
    ensures read_fault { IsErrOf result StoredPerformFault.ReadFault →
        Rose (F.failed_reads tree.old) (F.failed_reads tree.new) }
    ensures write_fault { IsErrOf result StoredPerformFault.WriteFault →
        Rose (F.failed_changes tree.old) (F.failed_changes tree.new) }
{
    match reaches(tree, &from, size) {
        Ok(true) => open_and_copy(tree, from, to, size, buffer),
        Ok(false) => Err(StoredPerformFault::Changed(from)),
        Err(fault) => Err(at_source(fault, from)),
    }
}

// Makes a folder, unless one is there.
fn make_one<F: Tree>(tree: &mut F, path: Path) -> Result<(), StoredPerformFault>
    ensures takes { TakesAgain F.Tree (step.Folder path) tree.old tree.new result }
    ensures frame { Came F.Tree tree.old tree.new }
    ensures read_fault { IsErrOf result StoredPerformFault.ReadFault →
        Rose (F.failed_reads tree.old) (F.failed_reads tree.new) }
    ensures write_fault { IsErrOf result StoredPerformFault.WriteFault →
        Rose (F.failed_changes tree.old) (F.failed_changes tree.new) }
{
    let done = make_missing(tree, &path);
    at_target(done, path)
}

// Cuts a file to a size.
fn cut_one<F: Tree>(tree: &mut F, path: Path, size: u64) -> Result<(), StoredPerformFault>
    ensures takes { TakesAgain F.Tree (step.Cut path size) tree.old tree.new result }
    ensures frame { Came F.Tree tree.old tree.new }
    ensures read_fault { IsErrOf result StoredPerformFault.ReadFault →
        Rose (F.failed_reads tree.old) (F.failed_reads tree.new) }
    ensures write_fault { IsErrOf result StoredPerformFault.WriteFault →
        Rose (F.failed_changes tree.old) (F.failed_changes tree.new) }
{
    let done = cut_file(tree, &path, size);
    at_target(done, path)
}

// Removes an entry, unless none is there.
fn remove_one<F: Tree>(tree: &mut F, path: Path) -> Result<(), StoredPerformFault>
    ensures takes { TakesAgain F.Tree (step.Remove path) tree.old tree.new result }
    ensures frame { Came F.Tree tree.old tree.new }
    ensures read_fault { IsErrOf result StoredPerformFault.ReadFault →
        Rose (F.failed_reads tree.old) (F.failed_reads tree.new) }
    ensures write_fault { IsErrOf result StoredPerformFault.WriteFault →
        Rose (F.failed_changes tree.old) (F.failed_changes tree.new) }
{
    let done = remove_present(tree, &path);
    at_target(done, path)
}

// Does one step again.
fn take<F: Tree>(tree: &mut F, step: Step, buffer: &mut [u8]) -> Result<(), StoredPerformFault>
    requires fit { IsFit step }
    requires some { 0 < length buffer.old }
    ensures takes { TakesAgain F.Tree step tree.old tree.new result }
    ensures frame { Came F.Tree tree.old tree.new }
    ensures read_fault { IsErrOf result StoredPerformFault.ReadFault →
        Rose (F.failed_reads tree.old) (F.failed_reads tree.new) }
    ensures write_fault { IsErrOf result StoredPerformFault.WriteFault →
        Rose (F.failed_changes tree.old) (F.failed_changes tree.new) }
{
    match step {
        Step::Folder(path) => make_one(tree, path),
        Step::Whole { from, to, size } => copy_whole(tree, from, to, size, buffer),
        Step::Cut(path, size) => cut_one(tree, path, size),
        Step::Range { from, to, at, size } => copy_one(tree, from, to, at, size, buffer),
        Step::Remove(path) => remove_one(tree, path),
    }
}

/// Does steps again, one after another, by pieces of at most 65536 bytes. Answers `ReadFault` where a
/// read failed, `WriteFault` where a changing call did, `Changed` where a file that a step reads isn't
/// there or too short, and `TargetDiffers` where the tree refuses a change.
pub(crate) fn take_all<F: Tree>(
    tree: &mut F,
    mut steps: VecDeque<Step>,
) -> Result<(), StoredPerformFault>
    requires fit { AllAreFit steps.items }
    ensures takes { TakesAllAgain F.Tree steps.items tree.old tree.new result }
    ensures frame { Came F.Tree tree.old tree.new }
    ensures read_fault { IsErrOf result StoredPerformFault.ReadFault →
        Rose (F.failed_reads tree.old) (F.failed_reads tree.new) }
    ensures write_fault { IsErrOf result StoredPerformFault.WriteFault →
        Rose (F.failed_changes tree.old) (F.failed_changes tree.new) }
{
    let mut buffer = [0; PIECE];
    while let Some(step) = steps.pop_front() {
        match take(tree, step, &mut buffer) {
            Ok(()) => (),
            Err(fault) => return Err(fault),
        }
    }
    Ok(())
}
