//! Reading the headers of a body, one fragment after another.

ghost use Rattle.std.specs.Prelude.{◌<◌, ◌^◌, Ok, IfOk, length};
ghost use Rattle.block_refs.specs.Bytes.{image_total};
ghost use Rattle.block_refs.specs.Outcomes.{MeetsAt};
ghost use Rattle.block_refs.specs.Parts.{parts_of};

use crate::fault::{PartsFault, fault_of};
use crate::fragment::{Seen, add_placed, after, is_ended, piece_at};
use crate::placed::Blocks;
use wal_base::Lsn;

/// Before the first fragment.
const NOTHING_SEEN: Seen = Seen {
    at: 0,
    announced: 0,
    before: None,
    main: 0,
};

/// What stands where in a body.
#[derive(Clone, Copy, Debug)]
pub struct Bounds {
    /// Where its headers end.
    pub start: usize,
    /// Where its main bytes begin.
    pub main: usize,
}

/// Reads the blocks of the body of a record at `start`, in place of those in `blocks`, and gives
/// what stands where in the body.
#[tactic(auto, using(crate::proofs::ReadLemmas::reading_steps))]
pub fn read_blocks(start: Lsn, body: &[u8], blocks: &mut Blocks) -> Result<Bounds, PartsFault>
    requires small { length body.now < 2 ^ 31 }
    ensures exact { MeetsAt start (parts_of body.now) blocks.new.items result }
    ensures few { IfOk result (λ _. image_total blocks.new.items < 2 ^ 32) }
{
    blocks.clear();
    let mut seen = NOTHING_SEEN;
    'fragments: while !is_ended(body, seen) {
        let piece = match piece_at(body, seen) {
            Ok(piece) => piece,
            Err(flaw) => return Err(fault_of(start, flaw)),
        };
        add_placed(blocks, seen.announced, piece.fragment);
        seen = after(seen, piece);
    }
    let main = seen.at + seen.announced - seen.main as usize;
    Ok(Bounds {
        start: seen.at,
        main,
    })
}
