//! Names of forks, relations and blocks, as src/common/relpath.c and pg_waldump have them.
use crate::texts::{byte, cut_at, first_number, number};
use crate::told::Told;
use block_refs::{BlockName, Fork, RelName};
use std::process::Abort;

pub(crate) const NAMES: &str = "\
fork 0 = Main main 0
fork 1 = FreeSpace fsm 1
fork 2 = Visibility vm 2
fork 3 = Init init 3
fork 4 = none
shown 1663 5 4294967295 3 20 = 1663/5/4294967295 init 20
rising 1 9 9 3 9, 2 1 9 3 9, 2 2 1 3 9, 2 2 2 0 9, 2 2 2 1 8, 2 2 2 3 6 = true
rising 2 2 2 3 6, 2 2 2 1 8 = false";

/// Tells the fork of a number, with its name and its number.
fn fork(told: &mut Told<'_>, number: u8) {
    let Some(fork) = Fork::from_number(number) else {
        return told.text("none");
    };
    told.shows("", &fork);
    told.says(" ", &fork.name());
    told.shows(" ", &fork.number());
}

/// A block by its five numbers.
fn numbered<R: Abort>(rt: &R, words: &str) -> BlockName {
    let (space, behind) = first_number(rt, words);
    let (database, behind) = first_number(rt, behind);
    let (relation, behind) = first_number(rt, behind);
    let (fork, block) = cut_at(behind, " ");
    let rel = RelName {
        space,
        database,
        relation,
    };
    BlockName {
        rel,
        fork: Fork::from_number(byte(rt, fork)).expect(rt, "no fork"),
        block: number(rt, block),
    }
}

/// Whether each block is below the next one.
fn is_rising<R: Abort>(rt: &R, blocks: &str) -> bool {
    let (first, behind) = cut_at(blocks, ", ");
    let mut last = numbered(rt, first);
    for words in behind.split(", ") {
        let block = numbered(rt, words);
        if last >= block {
            return false;
        }
        last = block;
    }
    true
}

/// Whether a line of a verb is as a row says: `fork N`, `shown SPACE DATABASE RELATION FORK BLOCK`, or `rising` of
/// such blocks.
pub(crate) fn block_name<R: Abort>(rt: &R, verb: &str, behind: &str, meant: &str) -> bool {
    let mut told = Told::new(meant);
    match verb {
        "fork" => fork(&mut told, byte(rt, behind)),
        "shown" => told.says("", &numbered(rt, behind)),
        _ => told.shows("", &is_rising(rt, behind)),
    }
    told.is_all()
}
