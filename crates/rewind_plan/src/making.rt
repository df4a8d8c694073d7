// A plan, made ready.
ghost use Rattle.std.specs.Prelude.{◌≡◌, ◌≤◌, length, IfOk};
ghost use Rattle.cluster_tree.specs.PathValue.{below};
ghost use Rattle.control_file.specs.Admission.{IsControl};
ghost use Rattle.control_file.specs.Writing.{control_bytes};
ghost use Rattle.backup_label.specs.Text.{label_text};
ghost use Rattle.rewind_writes.specs.Steps.{AllAreFit};
ghost use Rattle.rewind_plan.specs.Between.{between};
ghost use Rattle.rewind_plan.specs.PlanOf.{IsPlanOf};
ghost use Rattle.rewind_plan.specs.Room.{AllHaveRoom};
ghost use Rattle.rewind_plan.specs.Sides.{control_parts, label_parts, mark_parts};

use crate::roots::Clusters;
use crate::steps::steps_of;
use backup_label::Label;
use cluster_tree::{OutOfMemory, Path};
use control_file::{Control, write_control};
use file_walk::Pair;
use rewind_writes::{FileBytes, Plan};
use std::alloc::Global;

// The mark of a rewind below the target's root.
#[tactic(auto, using(crate::proofs::FileRoom::room_steps))]
fn mark_of(alloc: Global, root: &Path) -> Result<Path, OutOfMemory>
    requires room { length root.now.parts ≤ 61 }
    ensures { IfOk result (λ mark. mark ≡ below root.now mark_parts) }
{
    root.below(alloc, "pg_rewind.unfinished")
}

// The label's bytes.
fn label_bytes(alloc: Global, label: Label) -> Result<Vec<u8>, OutOfMemory>
    ensures { IfOk result (λ bytes. bytes.items ≡ label_text label) }
{
    let Ok(text) = label.text(alloc) else {
        return Err(OutOfMemory);
    };
    let mut bytes = Vec::new(alloc);
    bytes.extend_from_slice(text.as_str().as_bytes())?;
    Ok(bytes)
}

// The label as it is written.
#[tactic(auto, using(crate::proofs::FileRoom::room_steps))]
fn label_file(alloc: Global, root: &Path, label: Label) -> Result<FileBytes, OutOfMemory>
    requires room { length root.now.parts ≤ 61 }
    ensures at { IfOk result (λ file. file.path ≡ below root.now label_parts) }
    ensures says { IfOk result (λ file. file.bytes.items ≡ label_text label) }
{
    Ok(FileBytes {
        path: root.below(alloc, "backup_label")?,
        bytes: label_bytes(alloc, label)?,
    })
}

// A control file's bytes.
fn control_bytes(alloc: Global, control: &Control) -> Result<Vec<u8>, OutOfMemory>
    requires { IsControl control.now }
    ensures value { IfOk result (λ bytes. bytes.items ≡ control_bytes control.now) }
    ensures size { IfOk result (λ _. length (control_bytes control.now) ≡ 8192) }
{
    let mut bytes = vec![in alloc; 0; 8192]?;
    write_control(control, &mut bytes);
    Ok(bytes)
}

// The control file as it is written.
#[tactic(auto, using(crate::proofs::FileRoom::room_steps))]
fn control_file(alloc: Global, root: &Path, control: &Control) -> Result<FileBytes, OutOfMemory>
    requires room { length root.now.parts ≤ 61 }
    requires control { IsControl control.now }
    ensures at { IfOk result (λ file. file.path ≡ below root.now control_parts) }
    ensures says { IfOk result (λ file. file.bytes.items ≡ control_bytes control.now) }
    ensures size { IfOk result (λ _. length (control_bytes control.now) ≡ 8192) }
{
    Ok(FileBytes {
        path: root.below(alloc, "global/pg_control")?,
        bytes: control_bytes(alloc, control)?,
    })
}

/// The plan of a rewind of the paths below two roots, side by side and ascending, which leaves this
/// label and this control file. All memory that its changes need is taken. Answers `OutOfMemory` only
/// for want of memory.
pub fn plan_of(
    alloc: Global,
    clusters: &Clusters<'_>,
    pairs: &[Pair],
    control: &Control,
    label: Label,
) -> Result<Plan, OutOfMemory>
    requires depth { length clusters.now.target.now.parts ≤ 61 }
    requires room { AllHaveRoom (between clusters.now) pairs.now }
    requires control { IsControl control.now }
    ensures planned { IfOk result (IsPlanOf (between clusters.now) pairs.now control.now label) }
    // each end of a range is a number of 64 bits
    ensures fit { IfOk result (λ plan. AllAreFit plan.steps.items) }
{
    Ok(Plan {
        mark: mark_of(alloc, clusters.target)?,
        steps: steps_of(alloc, clusters, pairs)?,
        label: label_file(alloc, clusters.target, label)?,
        control: control_file(alloc, clusters.target, control)?,
    })
}
