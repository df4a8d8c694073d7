//! The text of a checkpoint.

ghost use Rattle.std.specs.Prelude.{◌≡◌, ◌++◌, IfOk, string_bytes};
ghost use Rattle.control_file.specs.Reading.{checkpoint_of};
ghost use Rattle.rmgr_desc.specs.Checkpoint.{checkpoint_text};
ghost use Rattle.rmgr_desc.specs.Pieces.{or_short};

use crate::pieces::{add_short, switch};
use control_file::{Checkpoint, read_checkpoint};
use std::alloc::AllocError;
use std::fmt;
use wal_base::Lsn;

/// Where a replay starts, and on which timeline.
#[derive(Clone, Copy)]
struct Redo<'a>(&'a Checkpoint);

impl fmt::Display for Redo<'_> {
    ghost use Rattle.std.specs.Prelude.{Some};
    ghost use Rattle.rmgr_desc.specs.Checkpoint.{redo_text};

    ghost output = { λ cp. Some (redo_text cp.0.now) };

    fn fmt<W: fmt::Write>(&self, f: &mut fmt::Formatter<W>) -> fmt::Result {
        let redo = Lsn(self.0.redo);
        let tli = self.0.tli;
        let prev = self.0.prevTli;
        let fpw = switch(self.0.fpw);
        write!(f, "redo {redo}; tli {tli}; prev tli {prev}; fpw {fpw}")
    }
}

/// What is given out next.
#[derive(Clone, Copy)]
struct Next<'a>(&'a Checkpoint);

impl fmt::Display for Next<'_> {
    ghost use Rattle.std.specs.Prelude.{Some};
    ghost use Rattle.rmgr_desc.specs.Checkpoint.{next_text};

    ghost output = { λ cp. Some (next_text cp.0.now) };

    fn fmt<W: fmt::Write>(&self, f: &mut fmt::Formatter<W>) -> fmt::Result {
        let epoch = self.0.nextXid / 0x1_0000_0000;
        let xid = self.0.nextXid % 0x1_0000_0000;
        let oid = self.0.nextOid;
        let multi = self.0.nextMulti;
        let offset = self.0.nextMultiOffset;
        write!(
            f,
            "xid {epoch}:{xid}; oid {oid}; multi {multi}; offset {offset}"
        )
    }
}

/// The oldest that may stand in the cluster.
#[derive(Clone, Copy)]
struct Oldest<'a>(&'a Checkpoint);

impl fmt::Display for Oldest<'_> {
    ghost use Rattle.std.specs.Prelude.{Some};
    ghost use Rattle.rmgr_desc.specs.Checkpoint.{oldest_text};

    ghost output = { λ cp. Some (oldest_text cp.0.now) };

    fn fmt<W: fmt::Write>(&self, f: &mut fmt::Formatter<W>) -> fmt::Result {
        let xid = self.0.oldestXid;
        let xid_db = self.0.oldestXidDb;
        let multi = self.0.oldestMulti;
        let multi_db = self.0.oldestMultiDb;
        write!(
            f,
            "oldest xid {xid} in DB {xid_db}; oldest multi {multi} in DB {multi_db}"
        )
    }
}

/// Those with a commit time, and the oldest that is running.
#[derive(Clone, Copy)]
struct Commits<'a>(&'a Checkpoint);

impl fmt::Display for Commits<'_> {
    ghost use Rattle.std.specs.Prelude.{Some};
    ghost use Rattle.rmgr_desc.specs.Checkpoint.{commit_text};

    ghost output = { λ cp. Some (commit_text cp.0.now) };

    fn fmt<W: fmt::Write>(&self, f: &mut fmt::Formatter<W>) -> fmt::Result {
        let oldest = self.0.oldestCommitTs;
        let newest = self.0.newestCommitTs;
        let xid = self.0.oldestActiveXid;
        write!(
            f,
            "oldest/newest commit timestamp xid: {oldest}/{newest}; oldest running xid {xid}"
        )
    }
}

/// Adds the text of the checkpoint in these main bytes, and the word of how it was made.
pub fn add_checkpoint(text: &mut String, main: &[u8], word: &str) -> Result<(), AllocError>
    ensures { IfOk result (λ _. string_bytes text.new
        ≡ string_bytes text.old ++ or_short (checkpoint_text word.now) (checkpoint_of main.now)) }
{
    let Some(cp) = read_checkpoint(main) else {
        return add_short(text);
    };
    let redo = Redo(&cp);
    let next = Next(&cp);
    let oldest = Oldest(&cp);
    let commits = Commits(&cp);
    write!(text, "{redo}; {next}; {oldest}; {commits}; {word}")
}
