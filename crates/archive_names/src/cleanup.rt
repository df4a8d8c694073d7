// The files that a clean-up removes.
ghost use Rattle.std.specs.Prelude.{◌≡◌, ◌++◌, [], ◌∷◌, cond, filter, option_map, IfOk, OnOk};
ghost use Rattle.archive_names.specs.Cleanup.{goes, removed_by_cleanup};

use crate::forms::{goes, kept_of};
use cluster_tree::{Names, OutOfMemory};
use std::alloc::Global;

// Adds a name to those that go, where it does.
fn add(
    gone: &mut Names,
    first: &[u8],
    extension: Option<&str>,
    name: &str,
) -> Result<(), OutOfMemory>
    ensures { OnOk result (gone.new ≡ gone.old ++ cond
        (goes (option_map (λ s. s.now) extension.entry) first.now name.now) (name.now ∷ []) []) }
{
    if goes(extension, first, name.as_bytes()) {
        gone.push(name)?;
    }
    Ok(())
}

// The names of those that go, where this segment is the first that is kept.
fn removed(
    alloc: Global,
    names: &Names,
    first: &[u8],
    extension: Option<&str>,
) -> Result<Names, OutOfMemory>
    ensures { IfOk result (λ gone. gone
        ≡ filter (goes (option_map (λ s. s.now) extension.entry) first.now) names.now) }
{
    let mut gone = Names::new(alloc);
    for at in 0..names.len() {
        let Some(name) = names.get(at) else {
            unreachable!()
        };
        add(&mut gone, first, extension, name)?;
    }
    Ok(gone)
}

/// The names of the files that a clean-up removes of these, in the order in which they are given:
/// less the extension at its end, the name of each is that of a segment's file, finished or not, and
/// stands before the one that is kept, whatever their timelines.
///
/// Answers `None` where the name to keep has none of its forms, and `OutOfMemory` only for want of
/// memory.
pub fn cleanup_list(
    alloc: Global,
    names: &Names,
    kept: &str,
    extension: Option<&str>,
) -> Result<Option<Names>, OutOfMemory>
    ensures { IfOk result (λ gone. gone
        ≡ removed_by_cleanup names.now kept.now (option_map (λ s. s.now) extension.entry)) }
{
    match kept_of(extension, kept.as_bytes()) {
        None => Ok(None),
        Some(first) => Ok(Some(removed(alloc, names, first, extension)?)),
    }
}
