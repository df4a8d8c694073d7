// Blocks that are copied, by runs.
ghost use Rattle.std.specs.Prelude.{◌≡◌, ◌/◌, ◌-◌, ◌<◌, ◌^◌, IfOk, OnOk};
ghost use Rattle.touched_blocks.specs.Set.{has_in};
ghost use Rattle.rewound_tree.specs.Mixed.{is_wanted};
ghost use Rattle.rewind_plan.specs.Blocks.{AllEnd, is_copied, onto_runs, runs_of};

use block_refs::RelName;
use cluster_tree::OutOfMemory;
use std::alloc::Global;
use std::collections::VecDeque;
use touched_blocks::Touched;

/// Blocks that stand side by side.
#[derive(Clone, Copy)]
pub(crate) struct Run {
    /// The first of them.
    pub(crate) first: u64,
    /// How many there are.
    pub(crate) count: u64,
}

/// A file of a relation: its relation, its segment, and how many blocks a segment has at most.
#[derive(Clone, Copy)]
pub(crate) struct Segment {
    pub(crate) rel: RelName,
    pub(crate) number: u32,
    pub(crate) per_file: u32,
}

// Whether a block of a segment was touched. A block past all numbers is touched where the last one is.
fn is_touched(touched: &Touched, file: Segment, block: u64) -> bool
    ensures { result ≡ is_wanted (has_in touched.now) file.per_file file.rel file.number block }
{
    let first = u64::from(file.number) * u64::from(file.per_file);
    let block = first.saturating_add(block).min(u64::from(u32::MAX));
    touched.has(file.rel, block as u32)
}

// Whether a block is copied to a file of `old` bytes: it was touched, or the file has none of it.
fn is_copied(touched: &Touched, file: Segment, old: u64, block: u64) -> bool
    ensures { result ≡ is_copied
        (is_wanted (has_in touched.now) file.per_file file.rel file.number) old block }
{
    is_touched(touched, file, block) || old / BLOCK <= block
}

// A block joins the run behind it, or begins one.
fn put_block(runs: &mut VecDeque<Run>, block: u64) -> Result<(), OutOfMemory>
    requires block { block < 2 ^ 51 }
    requires ends { AllEnd (2 ^ 51) runs.old.items }
    ensures { OnOk result (runs.new.items ≡ onto_runs block runs.old.items) }
{
    let count = match runs.pop_front() {
        Some(run) if run.first == block + 1 => run.count + 1,
        Some(run) => {
            runs.push_front(run)?;
            1
        }
        None => 1,
    };
    runs.push_front(Run {
        first: block,
        count,
    })?;
    Ok(())
}

/// The runs of the blocks that are copied of a file of `new` bytes to one of `old` bytes: those that
/// were touched, and those that the shorter file has none of.
pub(crate) fn copied_runs(
    alloc: Global,
    touched: &Touched,
    file: Segment,
    old: u64,
    new: u64,
) -> Result<VecDeque<Run>, OutOfMemory>
    ensures runs { IfOk result (λ runs. runs.items ≡ runs_of (is_copied
        (is_wanted (has_in touched.now) file.per_file file.rel file.number) old) 0 (new / 8192)) }
    ensures ends { IfOk result (λ runs. AllEnd (2 ^ 51 - 1) runs.items) }
{
    let mut runs = VecDeque::new(alloc);
    for block in (0..new / BLOCK).rev() {
        if is_copied(touched, file, old, block) {
            put_block(&mut runs, block)?;
        }
    }
    Ok(runs)
}

/// The bytes of a block.
pub(crate) const BLOCK: u64 = 8192;
