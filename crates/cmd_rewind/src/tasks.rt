// What is to be done, with all its lines made.
ghost use Rattle.std.specs.Prelude.{◌≡◌, IfOk};
ghost use Rattle.cluster_tree.specs.Contents.{Contents};
ghost use Rattle.rewind_writes.specs.Steps.{AllAreFit};
ghost use Rattle.rewind_core.specs.Fits.{IsFitPlanned};
ghost use Rattle.run_acts.specs.Answers.{does};
ghost use Rattle.cmd_rewind.specs.Tasks.{IsFitTask, IsTaskOf, IsWet, planned_answer, task_acts};

use crate::lines::{Lines, diverged, rewinding};
use rewind_core::{Plan, Planned};
use std::alloc::{AllocError, Global};

/// What is to be done.
#[derive(Drop)]
pub(crate) enum Task {
    /// This report is put, and nothing is changed.
    Tell(Lines),
    /// The target is rewound, behind these two lines and before the last one.
    Rewind(String, String, Plan),
}

// The same of a rewind that is needed.
fn needed_task(alloc: Global, plan: Plan, dry_run: bool) -> Result<Task, AllocError>
    requires fit { AllAreFit plan.writes.steps.items }
    ensures exact { IfOk result (λ task. (c : Contents) →
        does (task_acts task c) ≡ planned_answer dry_run c (Planned.Needed plan)) }
    ensures fit { IfOk result IsFitTask }
    ensures own { IfOk result (IsTaskOf dry_run (Planned.Needed plan)) }
    ensures wet { IfOk result (IsWet dry_run) }
{
    let first = diverged(alloc, plan.told().fork)?;
    let second = rewinding(alloc, plan.told())?;
    if dry_run {
        Ok(Task::Tell(Lines::Rewind(first, second)))
    } else {
        Ok(Task::Rewind(first, second, plan))
    }
}

/// What is to be done about what was planned. In a dry run a rewind is told of alone.
pub(crate) fn task_of(alloc: Global, planned: Planned, dry_run: bool) -> Result<Task, AllocError>
    requires fit { IsFitPlanned planned }
    ensures exact { IfOk result (λ task. (c : Contents) →
        does (task_acts task c) ≡ planned_answer dry_run c planned) }
    ensures fit { IfOk result IsFitTask }
    ensures own { IfOk result (IsTaskOf dry_run planned) }
    ensures wet { IfOk result (IsWet dry_run) }
{
    match planned {
        Planned::SameTimeline => Ok(Task::Tell(Lines::Same)),
        Planned::EndsAtFork(fork) => Ok(Task::Tell(Lines::AtFork(diverged(alloc, fork)?))),
        Planned::Needed(plan) => needed_task(alloc, plan, dry_run),
    }
}
