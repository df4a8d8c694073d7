//! Names of relations, of their forks and blocks.

ghost use Rattle.std.specs.Prelude.{◌≡◌, ◌≤◌, ◌↔◌, IsSome, IfSome};
ghost use Rattle.block_refs.specs.Names.{fork_name, fork_number, fork_of};

use std::fmt;

/// A relation by its files (`RelFileLocator`). It shows as its tablespace, its database and its
/// number, as `1663/5/16384`.
#[derive(Clone, Copy, Debug, PartialEq, Eq, PartialOrd, Ord)]
pub struct RelName {
    /// Its tablespace (`spcOid`).
    pub space: u32,
    /// Its database, or 0 where it is shared (`dbOid`).
    pub database: u32,
    /// Its number (`relNumber`).
    pub relation: u32,
}

impl fmt::Display for RelName {
    ghost use Rattle.std.specs.Prelude.{Some};
    ghost use Rattle.block_refs.specs.Names.{rel_text};

    ghost output = { λ rel. Some (rel_text rel) };

    fn fmt<W: fmt::Write>(&self, f: &mut fmt::Formatter<W>) -> fmt::Result {
        let RelName {
            space,
            database,
            relation,
        } = *self;
        write!(f, "{space}/{database}/{relation}")
    }
}

/// A fork of a relation (`ForkNumber`).
#[derive(Clone, Copy, Debug, PartialEq, Eq, PartialOrd, Ord)]
pub enum Fork {
    /// The relation's own blocks.
    Main,
    /// Its free space map.
    FreeSpace,
    /// Its visibility map.
    Visibility,
    /// What an unlogged relation is made of anew.
    Init,
}

impl Fork {
    ghost use Rattle.std.specs.Prelude.{Some};

    /// The fork of a number (`ForkNumber`), or `None` above 3.
    #[tactic(auto, unfolding(crate::specs::Names::fork_of))]
    pub fn from_number(number: u8) -> Option<Fork>
        ensures exact { result ≡ fork_of number }
        ensures known { IsSome result ↔ (number ≤ 3) }
        ensures value { IfSome result (λ fork. fork_number fork ≡ number) }
    {
        match number {
            0 => Some(Fork::Main),
            1 => Some(Fork::FreeSpace),
            2 => Some(Fork::Visibility),
            3 => Some(Fork::Init),
            _ => None,
        }
    }

    /// Its number (`ForkNumber`), from 0 to 3.
    #[tactic(auto, unfolding(crate::specs::Names::fork_of))]
    pub fn number(self) -> u8
        ensures value { result ≡ fork_number self }
        ensures again { fork_of result ≡ Some self }
    {
        match self {
            Fork::Main => 0,
            Fork::FreeSpace => 1,
            Fork::Visibility => 2,
            Fork::Init => 3,
        }
    }

    /// Its name, as files and options have it (`forkNames`): `main`, `fsm`, `vm` or `init`.
    pub fn name(self) -> &'static str
        ensures value { result.now ≡ fork_name self }
    {
        match self {
            Fork::Main => "main",
            Fork::FreeSpace => "fsm",
            Fork::Visibility => "vm",
            Fork::Init => "init",
        }
    }
}

/// A block of a relation. Blocks are ordered by tablespace, database, relation, fork and number. It
/// shows as its relation, the name of its fork and its number, as `1663/5/16384 main 0`.
#[derive(Clone, Copy, Debug, PartialEq, Eq, PartialOrd, Ord)]
pub struct BlockName {
    /// The relation.
    pub rel: RelName,
    /// Which of its forks.
    pub fork: Fork,
    /// Its number in that fork, from 0.
    pub block: u32,
}

impl fmt::Display for BlockName {
    ghost use Rattle.std.specs.Prelude.{Some};
    ghost use Rattle.block_refs.specs.Names.{block_text};

    ghost output = { λ name. Some (block_text name) };

    fn fmt<W: fmt::Write>(&self, f: &mut fmt::Formatter<W>) -> fmt::Result {
        let BlockName { rel, fork, block } = *self;
        let fork = fork.name();
        write!(f, "{rel} {fork} {block}")
    }
}
