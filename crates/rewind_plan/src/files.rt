// The steps of files of blocks.
ghost use Rattle.std.specs.Prelude.{◌≡◌, ◌++◌, ◌/◌, ◌*◌, ◌+◌, ◌<◌, ◌-◌, ◌^◌, [], ◌∷◌, cond, nat_lt, map, IfOk, OnOk};
ghost use Rattle.rewind_writes.specs.Steps.{AllAreFit, IsFit};
ghost use Rattle.rewind_writes.specs.declared.step.Step.TheVariants.{Cut};
ghost use Rattle.rewind_plan.specs.Blocks.{AllEnd, range_step};

use crate::place::Places;
use crate::runs::{BLOCK, Run};
use cluster_tree::{OutOfMemory, Path};
use rewind_writes::Step;
use std::alloc::Global;
use std::collections::VecDeque;

// The step that copies a run.
fn range(alloc: Global, from: &Path, to: &Path, run: Run) -> Result<Step, OutOfMemory>
    requires ends { (run.first + run.count) * 8192 < 2 ^ 64 }
    ensures step { IfOk result (λ step. step ≡ range_step from.now to.now run) }
    ensures fit { IfOk result IsFit }
{
    Ok(Step::Range {
        from: from.copy(alloc)?,
        to: to.copy(alloc)?,
        at: run.first * BLOCK,
        size: run.count * BLOCK,
    })
}

// Puts the steps that copy these runs before the others.
fn put_ranges(
    alloc: Global,
    steps: &mut VecDeque<Step>,
    from: &Path,
    to: &Path,
    mut runs: VecDeque<Run>,
) -> Result<(), OutOfMemory>
    requires ends { AllEnd (2 ^ 51 - 1) runs.items }
    ensures put { OnOk result (steps.new.items
        ≡ map (range_step from.now to.now) runs.items ++ steps.old.items) }
    ensures fit { OnOk result (AllAreFit steps.old.items → AllAreFit steps.new.items) }
{
    while let Some(run) = runs.pop_back() {
        steps.push_front(range(alloc, from, to, run)?)?;
    }
    Ok(())
}

/// Puts the steps of a file that both have before the others: a cut where it was longer, and the runs.
pub(crate) fn put_blocks(
    alloc: Global,
    steps: &mut VecDeque<Step>,
    places: &Places,
    runs: VecDeque<Run>,
    old: u64,
    new: u64,
) -> Result<(), OutOfMemory>
    requires ends { AllEnd (2 ^ 51 - 1) runs.items }
    ensures put { OnOk result (steps.new.items ≡ (cond (nat_lt new old) (Cut places.now.to new ∷ []) []
        ++ map (range_step places.now.from places.now.to) runs.items) ++ steps.old.items) }
    ensures fit { OnOk result (AllAreFit steps.old.items → AllAreFit steps.new.items) }
{
    put_ranges(alloc, steps, &places.from, &places.to, runs)?;
    if new < old {
        steps.push_front(Step::Cut(places.to.copy(alloc)?, new))?;
    }
    Ok(())
}
