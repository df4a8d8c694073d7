//! Blocks of main forks that were taken away.

ghost use Rattle.std.specs.Prelude.{◌≡◌, ◌==◌, ◌&&◌, ◌||◌, ℕ, [], nat_le, OnOk, OnErr};
ghost use Rattle.block_refs.specs.declared.names.RelName.{RelName};
ghost use Rattle.replay_profile.specs.Names.{is_rel};
ghost use Rattle.first_effects.specs.Taken.{Takes, cut_at, is_among, is_behind, is_taken, lower};

use block_refs::{BlockName, RelName};
use std::alloc::{AllocError, Global};
use std::collections::{BTreeMap, BTreeSet};
use std::marker::Model;

type Cuts = BTreeMap<RelName, u32>;

/// Whether a relation is cut at or before a block.
fn is_behind(cuts: &Cuts, rel: RelName, block: u32) -> bool
    ensures { result ≡ is_behind (cut_at cuts.now.entries rel) block }
{
    match cuts.get(&rel) {
        Some(cut) => *cut <= block,
        None => false,
    }
}

/// The lower one of a relation's cut, if it has one, and another.
fn lower(cuts: &Cuts, rel: RelName, from: u32) -> u32
    ensures { result ≡ lower (cut_at cuts.now.entries rel) from }
{
    match cuts.get(&rel) {
        Some(cut) => from.min(*cut),
        None => from,
    }
}

/// Cuts a relation: a lower cut takes the place of a higher one.
fn cut(cuts: &mut Cuts, rel: RelName, from: u32) -> Result<(), AllocError>
    ensures { OnOk result ((q : RelName) (block : ℕ) →
        is_behind (cut_at cuts.new.entries q) block
        ≡ (is_behind (cut_at cuts.old.entries q) block || (is_rel rel q && nat_le from block))) }
{
    let from = lower(cuts, rel, from);
    cuts.insert(rel, from)?;
    Ok(())
}

/// Adds a database.
fn add_database(databases: &mut BTreeSet<u32>, database: u32) -> Result<(), AllocError>
    ensures { OnOk result ((q : ℕ) →
        is_among databases.new.keys q ≡ (is_among databases.old.keys q || database == q)) }
{
    databases.insert(database)?;
    Ok(())
}

/// The blocks of main forks that records took away: of each relation the first from which on all
/// are, and the databases of which all are.
#[derive(Drop)]
pub(crate) struct Taken {
    cuts: Cuts,
    databases: BTreeSet<u32>,
}

impl Model for Taken {
    ghost use Rattle.first_effects.specs.Taken.{TakenView};

    ghost Value = { TakenView };

    ghost view = { λ t. record { cuts = t.cuts.entries; databases = t.databases.keys } };
}

impl Taken {
    /// No block.
    pub(crate) fn new(alloc: Global) -> Taken
        ensures { result ≡ record { cuts = []; databases = [] } }
    {
        Taken {
            cuts: BTreeMap::new(alloc),
            databases: BTreeSet::new(alloc),
        }
    }

    /// Whether a block of a main fork is there.
    pub(crate) fn has(&self, name: BlockName) -> bool
        ensures { result ≡ is_taken name self.now }
    {
        is_behind(&self.cuts, name.rel, name.block) || self.databases.contains(&name.rel.database)
    }

    /// Adds each block of a relation from one on.
    pub(crate) fn add_from(&mut self, rel: RelName, from: u32) -> Result<(), AllocError>
        ensures { OnOk result
            (Takes (λ name. is_rel rel name.rel && nat_le from name.block) self.old self.new) }
    {
        cut(&mut self.cuts, rel, from)
    }

    /// Adds each block of a database.
    pub(crate) fn add_database(&mut self, database: u32) -> Result<(), AllocError>
        ensures { OnOk result (Takes (λ name. database == name.rel.database) self.old self.new) }
    {
        add_database(&mut self.databases, database)
    }
}
