// The steps of a plan, each in its turn.
ghost use Rattle.std.specs.Prelude.{◌≡◌, ◌≤◌, length, map, IfOk};
ghost use Rattle.plan_text.specs.Reading.{first_step, in_turn, next_step, steps_in};

use crate::steps::{Roots, step_of, turn};
use cluster_tree::OutOfMemory;
use mark_lines::{first_line, words_of};
use rewind_writes::Step;
use std::alloc::Global;
use std::collections::VecDeque;

/// A step, where its turn is come.
fn in_turn(least: u8, step: Step) -> Option<Step>
    ensures { result ≡ in_turn least step }
{
    if least <= turn(&step) {
        Some(step)
    } else {
        None
    }
}

/// The next step in its turn.
fn next_step(
    alloc: Global,
    roots: &Roots<'_>,
    least: u8,
    line: &[u8],
) -> Result<Option<Step>, OutOfMemory>
    ensures { IfOk result (λ step. step
        ≡ next_step roots.now.target.now roots.now.source.now least line.now) }
{
    let words = words_of(alloc, line)?;
    match step_of(alloc, roots, &words)? {
        Some(step) => Ok(in_turn(least, step)),
        None => Ok(None),
    }
}

/// The step of the first line, in its turn.
fn first_step(
    alloc: Global,
    roots: &Roots<'_>,
    least: u8,
    pieces: &[&[u8]],
) -> Result<Option<Step>, OutOfMemory>
    ensures { IfOk result (λ step. step ≡ first_step roots.now.target.now roots.now.source.now
        least (map (λ piece. piece.now) pieces.now)) }
{
    match first_line(pieces) {
        Some((line, _)) => next_step(alloc, roots, least, line),
        None => Ok(None),
    }
}

/// The steps at the front, each in its turn.
pub(crate) fn steps_in(
    alloc: Global,
    roots: &Roots<'_>,
    pieces: &[&[u8]],
) -> Result<VecDeque<Step>, OutOfMemory>
    ensures steps { IfOk result (λ steps. steps.items
        ≡ steps_in roots.now.target.now roots.now.source.now 0 (map (λ piece. piece.now) pieces.now)) }
    ensures within { IfOk result (λ steps. length steps.items ≤ length pieces.now) }
{
    let mut steps = VecDeque::new(alloc);
    let mut least = 0;
    while let Some(step) = first_step(alloc, roots, least, &pieces[steps.len()..])? {
        least = turn(&step);
        steps.push_back(step)?;
    }
    Ok(steps)
}
