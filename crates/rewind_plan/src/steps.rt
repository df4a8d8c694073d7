// The steps of a plan.
ghost use Rattle.std.specs.Prelude.{◌≡◌, ◌++◌, ◌+◌, ◌≤◌, true, length, is_some, IfOk, OnOk, Some};
ghost use Rattle.cluster_tree.specs.PathValue.{below};
ghost use Rattle.file_walk.specs.Relations.{relation_of};
ghost use Rattle.rewind_writes.specs.Steps.{AllAreFit};
ghost use Rattle.rewind_plan.specs.Planned.{action_of, all_file_steps, both_files, file_steps, folder_step, folder_steps, removal_step, removal_steps, steps_of, touched_steps, whole_step};
ghost use Rattle.rewind_plan.specs.Between.{between};
ghost use Rattle.rewind_plan.specs.Room.{AllHaveRoom, HasRoom};

use crate::files::put_blocks;
use crate::place::{Places, place};
use crate::roots::Clusters;
use crate::runs::{Segment, copied_runs};
use block_refs::RelName;
use cluster_tree::{OutOfMemory, Path};
use file_walk::{Action, EntryKind, Pair, decide, is_relation_file};
use rewind_writes::Step;
use std::alloc::Global;
use std::collections::VecDeque;

// Where a path lies on either side.
fn places(alloc: Global, clusters: &Clusters<'_>, path: &Path) -> Result<Places, OutOfMemory>
    requires target { length clusters.now.target.now.parts + length path.now.parts ≤ 64 }
    requires source { length clusters.now.source.now.parts + length path.now.parts ≤ 64 }
    ensures from { IfOk result (λ places. places.from ≡ below clusters.now.source.now path.now.parts) }
    ensures to { IfOk result (λ places. places.to ≡ below clusters.now.target.now path.now.parts) }
{
    Ok(Places {
        from: place(alloc, clusters.source, path)?,
        to: place(alloc, clusters.target, path)?,
    })
}

// Puts the steps of a file of blocks before the others, where both have it.
fn put_both(
    alloc: Global,
    steps: &mut VecDeque<Step>,
    clusters: &Clusters<'_>,
    pair: &Pair,
    at: (RelName, u32),
) -> Result<(), OutOfMemory>
    requires room { HasRoom (between clusters.now) pair.now }
    ensures put { OnOk result (steps.new.items
        ≡ both_files (between clusters.now) pair.now at pair.now.target pair.now.source ++ steps.old.items) }
    ensures fit { OnOk result (AllAreFit steps.old.items → AllAreFit steps.new.items) }
{
    let (Some(EntryKind::File(old)), Some(EntryKind::File(new))) = (pair.target, pair.source) else {
        return Ok(());
    };
    let places = places(alloc, clusters, &pair.path)?;
    let file = Segment {
        rel: at.0,
        number: at.1,
        per_file: clusters.per_file,
    };
    let runs = copied_runs(alloc, clusters.touched, file, old, new)?;
    put_blocks(alloc, steps, &places, runs, old, new)
}

// Puts the steps of a file whose blocks are copied where they were touched before the others.
fn put_touched(
    alloc: Global,
    steps: &mut VecDeque<Step>,
    clusters: &Clusters<'_>,
    pair: &Pair,
) -> Result<(), OutOfMemory>
    requires room { HasRoom (between clusters.now) pair.now }
    ensures put { OnOk result (steps.new.items
        ≡ touched_steps (between clusters.now) pair.now (relation_of pair.now.path) ++ steps.old.items) }
    ensures fit { OnOk result (AllAreFit steps.old.items → AllAreFit steps.new.items) }
{
    match is_relation_file(&pair.path) {
        Some(at) => put_both(alloc, steps, clusters, pair, at),
        None => Ok(()),
    }
}

// Puts the step that copies a whole file before the others.
fn put_whole(
    alloc: Global,
    steps: &mut VecDeque<Step>,
    clusters: &Clusters<'_>,
    pair: &Pair,
) -> Result<(), OutOfMemory>
    requires target { length clusters.now.target.now.parts + length pair.now.path.parts ≤ 64 }
    requires room { HasRoom (between clusters.now) pair.now }
    ensures put { OnOk result (steps.new.items
        ≡ whole_step (between clusters.now) pair.now pair.now.source ++ steps.old.items) }
    ensures fit { OnOk result (AllAreFit steps.old.items → AllAreFit steps.new.items) }
{
    let Some(EntryKind::File(size)) = pair.source else {
        return Ok(());
    };
    let Places { from, to } = places(alloc, clusters, &pair.path)?;
    steps.push_front(Step::Whole { from, to, size })?;
    Ok(())
}

// Puts the steps of a pair's file before the others.
fn put_file(
    alloc: Global,
    steps: &mut VecDeque<Step>,
    clusters: &Clusters<'_>,
    pair: &Pair,
) -> Result<(), OutOfMemory>
    requires room { HasRoom (between clusters.now) pair.now }
    ensures put { OnOk result (steps.new.items
        ≡ file_steps (between clusters.now) pair.now (action_of pair.now) ++ steps.old.items) }
    ensures fit { OnOk result (AllAreFit steps.old.items → AllAreFit steps.new.items) }
{
    match decide(&pair.path, pair.target.as_ref(), pair.source.as_ref()) {
        Action::Copy => put_whole(alloc, steps, clusters, pair),
        Action::Nothing | Action::Tail | Action::Cut => put_touched(alloc, steps, clusters, pair),
        Action::MakeFolder | Action::Remove | Action::KindsDiffer => Ok(()),
    }
}

// Puts the step that makes a folder before the others.
fn put_folder(
    alloc: Global,
    steps: &mut VecDeque<Step>,
    clusters: &Clusters<'_>,
    pair: &Pair,
) -> Result<(), OutOfMemory>
    requires room { HasRoom (between clusters.now) pair.now }
    ensures put { OnOk result (steps.new.items
        ≡ folder_step (between clusters.now) pair.now (action_of pair.now) ++ steps.old.items) }
    ensures fit { OnOk result (AllAreFit steps.old.items → AllAreFit steps.new.items) }
{
    match decide(&pair.path, pair.target.as_ref(), pair.source.as_ref()) {
        Action::MakeFolder => {
            let path = place(alloc, clusters.target, &pair.path)?;
            steps.push_front(Step::Folder(path))?;
            Ok(())
        }
        _ => Ok(()),
    }
}

// Puts the step that removes what the target has before the others.
fn put_removal(
    alloc: Global,
    steps: &mut VecDeque<Step>,
    clusters: &Clusters<'_>,
    pair: &Pair,
) -> Result<(), OutOfMemory>
    requires room { HasRoom (between clusters.now) pair.now }
    ensures put { OnOk result (steps.new.items
        ≡ removal_step (between clusters.now) pair.now (action_of pair.now) ++ steps.old.items) }
    ensures fit { OnOk result (AllAreFit steps.old.items → AllAreFit steps.new.items) }
{
    match decide(&pair.path, pair.target.as_ref(), pair.source.as_ref()) {
        Action::Remove => {
            let path = place(alloc, clusters.target, &pair.path)?;
            steps.push_front(Step::Remove(path))?;
            Ok(())
        }
        _ => Ok(()),
    }
}

// Puts what goes before the others, the last first.
fn put_removals(
    alloc: Global,
    steps: &mut VecDeque<Step>,
    clusters: &Clusters<'_>,
    pairs: &[Pair],
) -> Result<(), OutOfMemory>
    requires room { AllHaveRoom (between clusters.now) pairs.now }
    ensures put { OnOk result (steps.new.items
        ≡ removal_steps (between clusters.now) pairs.now ++ steps.old.items) }
    ensures fit { OnOk result (AllAreFit steps.old.items → AllAreFit steps.new.items) }
{
    for pair in pairs {
        put_removal(alloc, steps, clusters, pair)?;
    }
    Ok(())
}

// Puts the steps of all files before the others.
fn put_files(
    alloc: Global,
    steps: &mut VecDeque<Step>,
    clusters: &Clusters<'_>,
    pairs: &[Pair],
) -> Result<(), OutOfMemory>
    requires room { AllHaveRoom (between clusters.now) pairs.now }
    ensures put { OnOk result (steps.new.items
        ≡ all_file_steps (between clusters.now) pairs.now ++ steps.old.items) }
    ensures fit { OnOk result (AllAreFit steps.old.items → AllAreFit steps.new.items) }
{
    for at in (0..pairs.len()).rev() {
        put_file(alloc, steps, clusters, &pairs[at])?;
    }
    Ok(())
}

// Puts the folders that are made before the others.
fn put_folders(
    alloc: Global,
    steps: &mut VecDeque<Step>,
    clusters: &Clusters<'_>,
    pairs: &[Pair],
) -> Result<(), OutOfMemory>
    requires room { AllHaveRoom (between clusters.now) pairs.now }
    ensures put { OnOk result (steps.new.items
        ≡ folder_steps (between clusters.now) pairs.now ++ steps.old.items) }
    ensures fit { OnOk result (AllAreFit steps.old.items → AllAreFit steps.new.items) }
{
    for at in (0..pairs.len()).rev() {
        put_folder(alloc, steps, clusters, &pairs[at])?;
    }
    Ok(())
}

/// The steps of a rewind of the paths below two roots, side by side and ascending: folders that are
/// made, files, and what goes, in this order. Answers `OutOfMemory` only for want of memory.
pub fn steps_of(
    alloc: Global,
    clusters: &Clusters<'_>,
    pairs: &[Pair],
) -> Result<VecDeque<Step>, OutOfMemory>
    requires room { AllHaveRoom (between clusters.now) pairs.now }
    ensures value { IfOk result (λ steps. steps.items ≡ steps_of (between clusters.now) pairs.now) }
    // each end of a range is a number of 64 bits
    ensures fit { IfOk result (λ steps. AllAreFit steps.items) }
{
    let mut steps = VecDeque::new(alloc);
    put_removals(alloc, &mut steps, clusters, pairs)?;
    put_files(alloc, &mut steps, clusters, pairs)?;
    put_folders(alloc, &mut steps, clusters, pairs)?;
    Ok(steps)
}
