// Files of main forks, which are compared block by block under the mask.
ghost use Rattle.std.specs.Prelude.{◌≡◌, ◌≢◌, bytes_eq, length, IfErr, IfOk, IsErrOf, IsTrue, Err};
ghost use Rattle.cluster_tree.specs.Causes.{Rose};
ghost use Rattle.cluster_tree.specs.Frame.{Reads};
ghost use Rattle.cluster_tree.specs.PathValue.{PathValue};
ghost use Rattle.cluster_tree.specs.Tree.{bytes_at};
ghost use Rattle.cluster_tree.specs.declared.file_fault.FileFault.TheVariants as file;
ghost use Rattle.page_masks.specs.Mask.{mask};
ghost use Rattle.cluster_compare.specs.Looks.{AreThere, IsLookFault};
ghost use Rattle.cluster_compare.specs.Same.{first_block, fork_block};

use crate::places::Files;
use crate::reading::read_both;
use cluster_tree::{FileFault, Tree};
use page_masks::masking::mask_bytes;
use std::alloc::Global;

/// The bytes of a block.
const BLOCK: usize = 8192;

/// A segment of a fork, by its number, and how many blocks a segment has at most.
#[derive(Clone, Copy)]
pub(crate) struct Segment {
    pub(crate) number: u32,
    pub(crate) per_file: u32,
}

// The number in its fork of a block of a segment.
fn fork_block(segment: Segment, block: u64) -> u32
    ensures { result ≡ fork_block segment.per_file segment.number block }
{
    let first = u64::from(segment.number) * u64::from(segment.per_file);
    first.saturating_add(block).min(u64::from(u32::MAX)) as u32
}

// Whether two blocks are one under the mask, as the block of this number. They may be left masked.
#[tactic(auto, using(crate::proofs::BlockLemmas::block_steps))]
fn is_same_block(here: &mut [u8], there: &mut [u8], number: u32) -> bool
    requires here { length here.old ≡ 8192 }
    requires there { length there.old ≡ 8192 }
    ensures { result ≡ bytes_eq (mask number here.old) (mask number there.old) }
{
    if *here == *there {
        return true;
    }
    mask_bytes(here, number);
    mask_bytes(there, number);
    *here == *there
}

/// The number in its fork of the first block that isn't one under the mask in two files of one
/// size, with the faults of `read_both`.
pub(crate) fn first_block<F: Tree>(
    alloc: Global,
    tree: &mut F,
    files: &Files,
    segment: Segment,
) -> Result<Option<u32>, FileFault>
    requires there { IsTrue F.tells → AreThere (F.contents tree.old) files.now }
    requires same { files.now.first.size ≡ files.now.second.size }
    ensures value { IsTrue F.tells → IfOk result (λ block. block
        ≡ first_block segment.per_file segment.number
        (bytes_at (F.contents tree.old) files.now.first.path)
        (bytes_at (F.contents tree.old) files.now.second.path)) }
    ensures reads { Reads F.Tree tree.old tree.new }
    ensures read_fault { IsErrOf result file.ReadFault →
        Rose (F.failed_reads tree.old) (F.failed_reads tree.new) }
    ensures changed { IsTrue F.tells → (p : PathValue) → result ≢ Err (file.Changed p) }
    ensures row { IfErr result IsLookFault }
{
    let mut here = [0; BLOCK];
    let mut there = [0; BLOCK];
    for block in 0..files.first.size / BLOCK as u64 {
        let at = block * BLOCK as u64;
        read_both(alloc, tree, files, at, &mut here, &mut there)?;
        let number = fork_block(segment, block);
        if !is_same_block(&mut here, &mut there, number) {
            return Ok(Some(number));
        }
    }
    Ok(None)
}
