// Two walks side by side.
ghost use Rattle.std.specs.Prelude.{◌≡◌, IfOk, OnOk, string_bytes};
ghost use Rattle.std.specs.FinMap.{empty, get, insert};
ghost use Rattle.file_walk.specs.Listed.{AreInOrder, IsListed, by_text};
ghost use Rattle.file_walk.specs.Merging.{IsMerged, PairMap, of_source, of_target, with_sources, with_targets};
ghost use Rattle.file_walk.specs.Pairs.{pairs_of};

use crate::entries::{Entries, Listed};
use crate::entry::EntryKind;
use cluster_tree::{OutOfMemory, Path};
use std::alloc::Global;
use std::collections::BTreeMap;

/// A path below both roots, and what stands there on either side.
#[derive(Debug, Drop)]
pub struct Pair {
    /// The path from the roots on.
    pub path: Path,
    /// What the target has there, if anything.
    pub target: Option<EntryKind>,
    /// What the source has there, if anything.
    pub source: Option<EntryKind>,
}

// Pairs by the texts of their paths.
type Pairs = BTreeMap<String, Pair>;

// Adds an entry of the target.
fn add_target(pairs: &mut Pairs, listed: Listed) -> Result<(), OutOfMemory>
    requires listed { IsListed listed }
    ensures added { OnOk result ((m : PairMap) →
        IsMerged m (by_text string_bytes pairs.old.entries) →
        IsMerged (insert m listed.entry.path (of_target listed.entry))
        (by_text string_bytes pairs.new.entries)) }
{
    let pair = Pair {
        path: listed.entry.path,
        target: Some(listed.entry.kind),
        source: None,
    };
    pairs.insert(listed.text, pair)?;
    Ok(())
}

// Adds an entry of the source.
fn add_source(pairs: &mut Pairs, listed: Listed) -> Result<(), OutOfMemory>
    requires listed { IsListed listed }
    ensures added { OnOk result ((m : PairMap) →
        IsMerged m (by_text string_bytes pairs.old.entries) →
        IsMerged (insert m listed.entry.path (of_source (get m listed.entry.path) listed.entry))
        (by_text string_bytes pairs.new.entries)) }
{
    let target = match pairs.get(listed.text.as_str()) {
        Some(pair) => pair.target,
        None => None,
    };
    let pair = Pair {
        path: listed.entry.path,
        target,
        source: Some(listed.entry.kind),
    };
    pairs.insert(listed.text, pair)?;
    Ok(())
}

// The paths of a target, without a source.
fn of_target(alloc: Global, target: Entries) -> Result<Pairs, OutOfMemory>
    ensures { IfOk result (λ pairs.
        IsMerged (with_targets empty target) (by_text string_bytes pairs.entries)) }
{
    let mut pairs = BTreeMap::new(alloc);
    for listed in target.into_listed() {
        add_target(&mut pairs, listed)?;
    }
    Ok(pairs)
}

// Adds what the source has.
fn with_source(pairs: &mut Pairs, source: Entries) -> Result<(), OutOfMemory>
    ensures { OnOk result ((m : PairMap) →
        IsMerged m (by_text string_bytes pairs.old.entries) →
        IsMerged (with_sources m source) (by_text string_bytes pairs.new.entries)) }
{
    for listed in source.into_listed() {
        add_source(pairs, listed)?;
    }
    Ok(())
}

/// The paths of a target and of a source, each once, in ascending order of their texts, with what
/// stands there on either side, where both are in order, as what a walk told of a tree that tells.
/// Answers `OutOfMemory` only for want of memory.
pub fn pair_up(alloc: Global, target: Entries, source: Entries) -> Result<Vec<Pair>, OutOfMemory>
    ensures value { AreInOrder target → AreInOrder source →
        IfOk result (λ pairs. pairs.items ≡ pairs_of target source) }
{
    let mut pairs = of_target(alloc, target)?;
    with_source(&mut pairs, source)?;
    Ok(pairs.into_values().collect(alloc)?)
}
