// The records of inserts.
ghost use Rattle.std.specs.Prelude.{◌≡◌, ◌+◌, IfOk, length};
ghost use Rattle.pair_maker.specs.Inserts.{insert_body};

use crate::side::value_of;
use cluster_tree::OutOfMemory;
use std::alloc::Global;

// The header of block 0: its id, that it has bytes, that these are 10; then the relation.
const FRONT: [u8; 16] = [0, 0x20, 10, 0, 127, 6, 0, 0, 5, 0, 0, 0, 0, 64, 0, 0];

// The header of three main bytes, and what the tuple's header says.
const MIDDLE: [u8; 8] = [255, 3, 1, 0, 0, 8, 24, 0];

// The main bytes: the place, and no flag.
const MAIN: [u8; 3] = [1, 0, 0];

/// The body of the record that inserts the tuple of a block.
pub(crate) fn insert_body(alloc: Global, seed: u64, block: u32) -> Result<Vec<u8>, OutOfMemory>
    ensures value { IfOk result (λ body. body.items ≡ insert_body seed block) }
    ensures size { IfOk result (λ body. length body.items ≡ 35) }
{
    let mut body = Vec::new(alloc);
    body.extend_from_slice(&FRONT)?;
    body.extend_from_slice(&block.to_le_bytes())?;
    body.extend_from_slice(&MIDDLE)?;
    body.extend_from_slice(&value_of(seed, block).to_le_bytes())?;
    body.extend_from_slice(&MAIN)?;
    Ok(body)
}
