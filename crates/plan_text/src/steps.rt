// The steps of a plan as lines.
ghost use Rattle.std.specs.Prelude.{◌≡◌, length, map, max, string_bytes, IfOk, IfSome, Ok};
ghost use Rattle.std.specs.Option.{option_map};
ghost use Rattle.rewind_writes.specs.Steps.{IsFit};
ghost use Rattle.cluster_tree.specs.Paths.{checked};
ghost use Rattle.plan_text.specs.Paths.{step_way_in};
ghost use Rattle.plan_text.specs.Steps.{cut_in, folder_in, pathed, range_in, ranged, removed_in, sized, step_of, turn, whole_in};

use crate::paths::step_way_in;
use cluster_tree::{OutOfMemory, Path};
use rewind_writes::Step;
use std::alloc::Global;
use wal_base::decimal_u64;

/// The roots between which a plan is.
#[derive(Drop)]
pub(crate) struct Roots<'a> {
    /// The root of the cluster that is changed.
    pub(crate) target: &'a Path,
    /// The root of the cluster that is read.
    pub(crate) source: &'a Path,
}

/// The way of a path that has room below both roots.
fn way_both(alloc: Global, roots: &Roots<'_>, word: &[u8]) -> Result<Option<String>, OutOfMemory>
    ensures value { IfOk result (λ way. option_map string_bytes way ≡ step_way_in
        (max (length roots.now.target.now.parts) (length roots.now.source.now.parts)) word.now) }
    ensures target { IfOk result (λ way. IfSome way (λ text.
        checked (length roots.now.target.now.parts) (string_bytes text) ≡ Ok tt)) }
    ensures source { IfOk result (λ way. IfSome way (λ text.
        checked (length roots.now.source.now.parts) (string_bytes text) ≡ Ok tt)) }
{
    step_way_in(alloc, roots.target.len().max(roots.source.len()), word)
}

/// A folder that is made.
fn folder(alloc: Global, roots: &Roots<'_>, path: &[u8]) -> Result<Option<Step>, OutOfMemory>
    ensures { IfOk result (λ step. step
        ≡ folder_in roots.now.target.now roots.now.source.now path.now) }
{
    let Some(way) = way_both(alloc, roots, path)? else {
        return Ok(None);
    };
    Ok(Some(Step::Folder(roots.target.below(alloc, &way)?)))
}

/// What goes.
fn removed(alloc: Global, root: &Path, path: &[u8]) -> Result<Option<Step>, OutOfMemory>
    ensures { IfOk result (λ step. step ≡ removed_in root.now path.now) }
{
    let Some(way) = step_way_in(alloc, root.len(), path)? else {
        return Ok(None);
    };
    Ok(Some(Step::Remove(root.below(alloc, &way)?)))
}

/// The step of a word and its path.
fn pathed(
    alloc: Global,
    roots: &Roots<'_>,
    verb: &[u8],
    path: &[u8],
) -> Result<Option<Step>, OutOfMemory>
    ensures { IfOk result (λ step. step
        ≡ pathed roots.now.target.now roots.now.source.now verb.now path.now) }
{
    if verb == b"folder".as_slice() {
        folder(alloc, roots, path)
    } else if verb == b"remove".as_slice() {
        removed(alloc, roots.target, path)
    } else {
        Ok(None)
    }
}

/// A file that is copied whole.
fn whole(
    alloc: Global,
    roots: &Roots<'_>,
    path: &[u8],
    size: u64,
) -> Result<Option<Step>, OutOfMemory>
    ensures { IfOk result (λ step. step
        ≡ whole_in roots.now.target.now roots.now.source.now path.now size) }
{
    let Some(way) = way_both(alloc, roots, path)? else {
        return Ok(None);
    };
    let from = roots.source.below(alloc, &way)?;
    let to = roots.target.below(alloc, &way)?;
    Ok(Some(Step::Whole { from, to, size }))
}

/// A file that is cut.
fn cut(
    alloc: Global,
    roots: &Roots<'_>,
    path: &[u8],
    size: u64,
) -> Result<Option<Step>, OutOfMemory>
    ensures { IfOk result (λ step. step
        ≡ cut_in roots.now.target.now roots.now.source.now path.now size) }
{
    let Some(way) = way_both(alloc, roots, path)? else {
        return Ok(None);
    };
    Ok(Some(Step::Cut(roots.target.below(alloc, &way)?, size)))
}

/// The step of a word, its path and a size.
fn sized(
    alloc: Global,
    roots: &Roots<'_>,
    words: (&[u8], &[u8], &[u8]),
) -> Result<Option<Step>, OutOfMemory>
    ensures { IfOk result (λ step. step
        ≡ sized roots.now.target.now roots.now.source.now
        words.entry.0.now words.entry.1.now words.entry.2.now) }
{
    let (verb, path, size) = words;
    let Some(size) = decimal_u64(size) else {
        return Ok(None);
    };
    if verb == b"whole".as_slice() {
        whole(alloc, roots, path, size)
    } else if verb == b"cut".as_slice() {
        cut(alloc, roots, path, size)
    } else {
        Ok(None)
    }
}

/// Bytes that are copied.
fn range(
    alloc: Global,
    roots: &Roots<'_>,
    path: &[u8],
    at: u64,
    size: u64,
) -> Result<Option<Step>, OutOfMemory>
    ensures { IfOk result (λ step. step
        ≡ range_in roots.now.target.now roots.now.source.now path.now at size) }
{
    if at.checked_add(size).is_none() {
        return Ok(None);
    }
    let Some(way) = way_both(alloc, roots, path)? else {
        return Ok(None);
    };
    let from = roots.source.below(alloc, &way)?;
    let to = roots.target.below(alloc, &way)?;
    Ok(Some(Step::Range { from, to, at, size }))
}

/// The step of a word, its path, where bytes begin and how many they are.
fn ranged(
    alloc: Global,
    roots: &Roots<'_>,
    words: (&[u8], &[u8], &[u8], &[u8]),
) -> Result<Option<Step>, OutOfMemory>
    ensures { IfOk result (λ step. step ≡ ranged roots.now.target.now roots.now.source.now
        words.entry.0.now words.entry.1.now words.entry.2.now words.entry.3.now) }
{
    let (verb, path, at, size) = words;
    if verb != b"range".as_slice() {
        return Ok(None);
    }
    let (Some(at), Some(size)) = (decimal_u64(at), decimal_u64(size)) else {
        return Ok(None);
    };
    range(alloc, roots, path, at, size)
}

/// The step that words say.
pub(crate) fn step_of(
    alloc: Global,
    roots: &Roots<'_>,
    words: &[&[u8]],
) -> Result<Option<Step>, OutOfMemory>
    ensures { IfOk result (λ step. step
        ≡ step_of roots.now.target.now roots.now.source.now (map (λ word. word.now) words.now)) }
{
    match words {
        [verb, path] => pathed(alloc, roots, verb, path),
        [verb, path, size] => sized(alloc, roots, (verb, path, size)),
        [verb, path, at, size] => ranged(alloc, roots, (verb, path, at, size)),
        [] | [_] => Ok(None),
        [_, _, _, _, _, ..] => Ok(None),
    }
}

/// The turn of a step: folders are made before files are written, and what goes is removed behind
/// these.
pub(crate) fn turn(step: &Step) -> u8
    ensures { result ≡ turn step.now }
{
    match step {
        Step::Folder(_) => 0,
        Step::Whole { .. } | Step::Cut(..) | Step::Range { .. } => 1,
        Step::Remove(_) => 2,
    }
}
