//! The names of relations, databases and blocks that replay knows.

ghost use Rattle.std.specs.Prelude.{◌≡◌, ◌==◌};
ghost use Rattle.block_refs.specs.Names.{fork_number};
ghost use Rattle.replay_profile.specs.Names.{is_rel, is_block, is_known_block, is_known_database, is_known_place, is_known_rel, is_known_space};

use block_refs::{BlockName, Fork, RelName};

/// The default tablespace (`pg_default`), and the one of shared relations (`pg_global`).
const DEFAULT_SPACE: u32 = 1663;

const GLOBAL_SPACE: u32 = 1664;

/// The number that no block has (`InvalidBlockNumber`).
const NO_BLOCK: u32 = 0xFFFF_FFFF;

/// Whether a tablespace is the default one.
pub(crate) fn is_known_space(space: u32) -> bool
    ensures { result ≡ is_known_space space }
{
    space == DEFAULT_SPACE
}

/// Whether replay takes a database of this number: every one but 0.
pub fn is_known_database(database: u32) -> bool
    ensures { result ≡ is_known_database database }
{
    database != 0
}

/// Whether a relation's tablespace and database go together.
fn is_known_place(rel: RelName) -> bool
    ensures { result ≡ is_known_place rel }
{
    if rel.space == GLOBAL_SPACE && rel.database == 0 {
        return true;
    }
    is_known_space(rel.space) && is_known_database(rel.database)
}

/// Whether replay takes a relation of this name: its number isn't 0, and it is in `pg_global` and
/// in no database, or in the default tablespace and in a database.
pub fn is_known_rel(rel: RelName) -> bool
    ensures { result ≡ is_known_rel rel }
{
    rel.relation != 0 && is_known_place(rel)
}

/// Whether replay takes a block of this name.
pub(crate) fn is_known_block(name: BlockName) -> bool
    ensures { result ≡ is_known_block name }
{
    is_known_rel(name.rel) && name.block != NO_BLOCK
}

fn is_rel(a: RelName, b: RelName) -> bool
    ensures { result ≡ is_rel a b }
{
    a.space == b.space && a.database == b.database && a.relation == b.relation
}

fn is_fork(a: Fork, b: Fork) -> bool
    ensures { result ≡ (fork_number a == fork_number b) }
{
    a.number() == b.number()
}

/// Whether two names are of one block.
pub(crate) fn is_block(a: BlockName, b: BlockName) -> bool
    ensures { result ≡ is_block a b }
{
    is_rel(a.rel, b.rel) && is_fork(a.fork, b.fork) && a.block == b.block
}
