//! The parts of a set: chunks by relation and run, cuts by relation, and databases.

ghost use Rattle.std.specs.Prelude.{◌≡◌, ◌&&◌, ◌||◌, ◌==◌, ℕ, is_some, nat_le, min, Some, option_map, MatchOption, OnOk, OnErr};
ghost use Rattle.block_refs.specs.declared.names.RelName.{RelName};
ghost use Rattle.touched_blocks.specs.Named.{is_rel};
ghost use Rattle.touched_blocks.specs.Set.{chunk_at, cut_at, is_among, is_behind, is_run, is_set_in, least};
ghost use Rattle.touched_blocks.specs.declared.marks.RunKey.{RunKey};

use crate::chunk::Chunk;
use block_refs::RelName;
use std::alloc::{AllocError, Global};
use std::collections::{BTreeMap, BTreeSet};

/// A run of 65,536 blocks of a relation's main fork.
#[derive(Clone, Copy, Debug, PartialEq, Eq, PartialOrd, Ord)]
pub struct RunKey {
    /// The relation.
    pub rel: RelName,
    /// Which run: the number of its first block, divided by 65,536.
    pub run: u32,
}

pub(crate) type Chunks = BTreeMap<RunKey, Chunk>;

pub(crate) type Cuts = BTreeMap<RelName, u32>;

/// Whether a bit is set.
pub(crate) fn has_bit(chunks: &Chunks, key: RunKey, at: u16) -> bool
    ensures { result ≡ is_set_in (chunk_at chunks.now.entries key) at }
{
    match chunks.get(&key) {
        Some(chunk) => chunk.has(at),
        None => false,
    }
}

/// Sets a bit, in a chunk of its own where the run has none. After an error all is as it was.
pub(crate) fn set_bit(
    alloc: Global,
    chunks: &mut Chunks,
    key: RunKey,
    at: u16,
) -> Result<(), AllocError>
    ensures bits { OnOk result ((q : RunKey) (i : ℕ) → is_set_in (chunk_at chunks.new.entries q) i
        ≡ (is_set_in (chunk_at chunks.old.entries q) i || (is_run key q && at == i))) }
    ensures keys { OnOk result ((q : RunKey) → is_some (chunk_at chunks.new.entries q)
        ≡ (is_some (chunk_at chunks.old.entries q) || is_run key q)) }
    ensures kept { OnErr result (chunks.new.entries ≡ chunks.old.entries) }
{
    if let Some(chunk) = chunks.get_mut(&key) {
        chunk.set(at);
        return Ok(());
    }
    let chunk = Chunk::of(alloc, at)?;
    chunks.insert(key, chunk)?;
    Ok(())
}

/// Whether a relation is cut at or before a block.
pub(crate) fn is_behind(cuts: &Cuts, rel: RelName, block: u32) -> bool
    ensures { result ≡ is_behind (cut_at cuts.now.entries rel) block }
{
    match cuts.get(&rel) {
        Some(cut) => *cut <= block,
        None => false,
    }
}

/// The lower one of a relation's cut, if it has one, and another.
fn least(cuts: &Cuts, rel: RelName, from: u32) -> u32
    ensures { result ≡ least (cut_at cuts.now.entries rel) from }
{
    match cuts.get(&rel) {
        Some(cut) => from.min(*cut),
        None => from,
    }
}

/// Cuts a relation: a lower cut takes the place of a higher one. After an error all is as it was.
pub(crate) fn cut(cuts: &mut Cuts, rel: RelName, from: u32) -> Result<(), AllocError>
    ensures blocks { OnOk result ((q : RelName) (block : ℕ) →
        is_behind (cut_at cuts.new.entries q) block
        ≡ (is_behind (cut_at cuts.old.entries q) block || (is_rel rel q && nat_le from block))) }
    ensures keys { OnOk result ((q : RelName) → is_some (cut_at cuts.new.entries q)
        ≡ (is_some (cut_at cuts.old.entries q) || is_rel rel q)) }
    ensures kept { OnErr result (cuts.new.entries ≡ cuts.old.entries) }
{
    let from = least(cuts, rel, from);
    cuts.insert(rel, from)?;
    Ok(())
}

/// Adds a database. After an error all is as it was.
pub(crate) fn add_database(databases: &mut BTreeSet<u32>, database: u32) -> Result<(), AllocError>
    ensures keys { OnOk result ((q : ℕ) →
        is_among databases.new.keys q ≡ (is_among databases.old.keys q || database == q)) }
    ensures kept { OnErr result (databases.new.keys ≡ databases.old.keys) }
{
    databases.insert(database)?;
    Ok(())
}
