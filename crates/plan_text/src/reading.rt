// The whole of a plan.
ghost use Rattle.std.specs.Prelude.{◌≡◌, ◌+◌, ◌<◌, ◌^◌, ◌≤◌, codes, length, map, IfOk, MatchResult, Ok};
ghost use Rattle.rewind_writes.specs.Steps.{AllAreFit};
ghost use Rattle.plan_text.specs.Text.{said_by};
ghost use Rattle.mark_lines.specs.Lines.{end_of, said_first};
ghost use Rattle.plan_text.specs.Reading.{behind_head, bytes_of, closing_in, control_of, said_in, said_of, source_of, told_of};
ghost use Rattle.plan_text.specs.Stored.{IsFault, IsPlacedAt};

use crate::fault::StoredFault;
use crate::saying::{bytes_of, control_of, source_of, told_of};
use crate::steps::Roots;
use crate::stored::StoredPlan;
use crate::turns::steps_in;
use cluster_tree::{OutOfMemory, Path};
use mark_lines::{end_of, first_line, pieces_of};
use rewind_survey::Told;
use rewind_writes::{FileBytes, Plan, Step};
use std::alloc::Global;
use std::collections::VecDeque;

/// The CRC in the first line, and what stands behind it.
fn source_at<'a>(
    alloc: Global,
    pieces: &'a [&'a [u8]],
) -> Result<(u32, &'a [&'a [u8]]), StoredFault>
    ensures { MatchResult result
        (λ said. said_first source_of 1 (map (λ piece. piece.now) pieces.now)
        ≡ Ok (said.0, map (λ piece. piece.now) said.1.now))
        (IsFault (said_first source_of 1 (map (λ piece. piece.now) pieces.now))) }
{
    let (line, behind) = first_line(pieces).ok_or(StoredFault::BadPlan(1))?;
    let sum = source_of(alloc, line)?.ok_or(StoredFault::BadPlan(1))?;
    Ok((sum, behind))
}

/// From where is rewound, and what stands behind that line.
fn told_at<'a>(alloc: Global, pieces: &'a [&'a [u8]]) -> Result<(Told, &'a [&'a [u8]]), StoredFault>
    ensures { MatchResult result
        (λ said. said_first told_of 2 (map (λ piece. piece.now) pieces.now)
        ≡ Ok (said.0, map (λ piece. piece.now) said.1.now))
        (IsFault (said_first told_of 2 (map (λ piece. piece.now) pieces.now))) }
{
    let (line, behind) = first_line(pieces).ok_or(StoredFault::BadPlan(2))?;
    let told = told_of(alloc, line)?.ok_or(StoredFault::BadPlan(2))?;
    Ok((told, behind))
}

/// The label's bytes, and what stands behind that line.
fn label_at<'a>(
    alloc: Global,
    number: u64,
    pieces: &'a [&'a [u8]],
) -> Result<(Vec<u8>, &'a [&'a [u8]]), StoredFault>
    ensures { MatchResult result
        (λ said. said_first (bytes_of (codes "label")) number (map (λ piece. piece.now) pieces.now)
        ≡ Ok (said.0.items, map (λ piece. piece.now) said.1.now))
        (IsFault (said_first (bytes_of (codes "label")) number (map (λ piece. piece.now) pieces.now))) }
{
    let (line, behind) = first_line(pieces).ok_or(StoredFault::BadPlan(number))?;
    let label = bytes_of(alloc, b"label", line)?.ok_or(StoredFault::BadPlan(number))?;
    Ok((label, behind))
}

/// The control file's bytes, and what stands behind that line.
fn control_at<'a>(
    alloc: Global,
    number: u64,
    pieces: &'a [&'a [u8]],
) -> Result<(Vec<u8>, &'a [&'a [u8]]), StoredFault>
    ensures { MatchResult result
        (λ said. said_first control_of number (map (λ piece. piece.now) pieces.now)
        ≡ Ok (said.0.items, map (λ piece. piece.now) said.1.now))
        (IsFault (said_first control_of number (map (λ piece. piece.now) pieces.now))) }
{
    let (line, behind) = first_line(pieces).ok_or(StoredFault::BadPlan(number))?;
    let control = control_of(alloc, line)?.ok_or(StoredFault::BadPlan(number))?;
    Ok((control, behind))
}

/// What stands behind the last line.
fn end_at<'a>(
    alloc: Global,
    number: u64,
    pieces: &'a [&'a [u8]],
) -> Result<&'a [&'a [u8]], StoredFault>
    ensures { MatchResult result
        (λ rest. said_first end_of number (map (λ piece. piece.now) pieces.now)
        ≡ Ok (tt, map (λ piece. piece.now) rest.now))
        (IsFault (said_first end_of number (map (λ piece. piece.now) pieces.now))) }
{
    let (line, behind) = first_line(pieces).ok_or(StoredFault::BadPlan(number))?;
    end_of(alloc, line)?.ok_or(StoredFault::BadPlan(number))?;
    Ok(behind)
}

/// The bytes of the label and of the control file, with which a plan ends.
fn closing(alloc: Global, number: u64, pieces: &[&[u8]]) -> Result<(Vec<u8>, Vec<u8>), StoredFault>
    requires { number + 3 < 2 ^ 64 }
    ensures { MatchResult result
        (λ bytes. closing_in number (map (λ piece. piece.now) pieces.now)
        ≡ Ok record { label = bytes.0.items; control = bytes.1.items })
        (IsFault (closing_in number (map (λ piece. piece.now) pieces.now))) }
{
    let (label, behind) = label_at(alloc, number, pieces)?;
    let (control, last) = control_at(alloc, number + 1, behind)?;
    match end_at(alloc, number + 2, last)? {
        [[]] => Ok((label, control)),
        _ => Err(StoredFault::BadPlan(number + 3)),
    }
}

/// A plan below a root.
fn placed(
    alloc: Global,
    root: &Path,
    steps: VecDeque<Step>,
    closing: (Vec<u8>, Vec<u8>),
) -> Result<Plan, OutOfMemory>
    requires { length root.now.parts ≤ 62 }
    ensures steps { IfOk result (λ plan. plan.steps.items ≡ steps.items) }
    ensures label { IfOk result (λ plan. plan.label.bytes.items ≡ closing.0.items) }
    ensures control { IfOk result (λ plan. plan.control.bytes.items ≡ closing.1.items) }
    ensures placed { IfOk result (IsPlacedAt root.now) }
{
    let (label, control) = closing;
    Ok(Plan {
        mark: root.below(alloc, "pg_rewind.unfinished")?,
        steps,
        label: FileBytes {
            path: root.below(alloc, "backup_label")?,
            bytes: label,
        },
        control: FileBytes {
            path: root.below(alloc, "global/pg_control")?,
            bytes: control,
        },
    })
}

/// The steps of a plan, and what closes it.
fn behind_head(
    alloc: Global,
    roots: &Roots<'_>,
    head: (u32, Told),
    pieces: &[&[u8]],
) -> Result<StoredPlan, StoredFault>
    requires { length roots.now.target.now.parts ≤ 62 }
    ensures said { MatchResult result
        (λ stored. behind_head roots.now.target.now roots.now.source.now head.0 head.1
        (map (λ piece. piece.now) pieces.now) ≡ Ok (said_by stored))
        (IsFault (behind_head roots.now.target.now roots.now.source.now head.0 head.1
        (map (λ piece. piece.now) pieces.now))) }
    ensures placed { IfOk result (λ stored. IsPlacedAt roots.now.target.now stored.plan) }
    ensures fit { IfOk result (λ stored. AllAreFit stored.plan.steps.items) }
{
    let (source, told) = head;
    let steps = steps_in(alloc, roots, pieces)?;
    match closing(alloc, steps.len() as u64 + 3, &pieces[steps.len()..]) {
        Ok(closing) => {
            let plan = placed(alloc, roots.target, steps, closing)?;
            Ok(StoredPlan { source, told, plan })
        }
        Err(fault) => Err(fault),
    }
}

/// The plan that pieces say.
fn said_in(alloc: Global, roots: &Roots<'_>, pieces: &[&[u8]]) -> Result<StoredPlan, StoredFault>
    requires { length roots.now.target.now.parts ≤ 62 }
    ensures said { MatchResult result
        (λ stored. said_in roots.now.target.now roots.now.source.now
        (map (λ piece. piece.now) pieces.now) ≡ Ok (said_by stored))
        (IsFault (said_in roots.now.target.now roots.now.source.now
        (map (λ piece. piece.now) pieces.now))) }
    ensures placed { IfOk result (λ stored. IsPlacedAt roots.now.target.now stored.plan) }
    ensures fit { IfOk result (λ stored. AllAreFit stored.plan.steps.items) }
{
    match source_at(alloc, pieces) {
        Ok((sum, behind)) => match told_at(alloc, behind) {
            Ok((told, rest)) => behind_head(alloc, roots, (sum, told), rest),
            Err(fault) => Err(fault),
        },
        Err(fault) => Err(fault),
    }
}

/// The plan between two roots that a text says: that of a mark from byte 14 on.
///
/// Answers `BadPlan` with the number, from 1, of the first line that isn't of its form or its place, or
/// of the line behind the last where the plan doesn't end; and `OutOfMemory` only for want of memory.
pub fn stored_plan(
    alloc: Global,
    target: &Path,
    source: &Path,
    text: &[u8],
) -> Result<StoredPlan, StoredFault>
    requires { length target.now.parts ≤ 62 }
    ensures said { MatchResult result
        (λ stored. said_of target.now source.now text.now ≡ Ok (said_by stored))
        (IsFault (said_of target.now source.now text.now)) }
    ensures placed { IfOk result (λ stored. IsPlacedAt target.now stored.plan) }
    ensures fit { IfOk result (λ stored. AllAreFit stored.plan.steps.items) }
{
    let pieces = pieces_of(alloc, text)?;
    let roots = Roots { target, source };
    said_in(alloc, &roots, &pieces)
}
