// Bits of the visibility map that are cleared.
ghost use Rattle.std.specs.Prelude.{◌≡◌, ◌≢◌, ◌<◌, IsTrue, Err, IsErrOf};
ghost use Rattle.cluster_tree.specs.PathValue.{PathValue};
ghost use Rattle.cluster_tree.specs.Causes.{Rose};
ghost use Rattle.cluster_tree.specs.Frame.{Came};
ghost use Rattle.file_edits.specs.Answers.{Does};
ghost use Rattle.file_edits.specs.Own.{OnOwn};
ghost use Rattle.storage_replay.specs.Files.{AreFit};
ghost use Rattle.file_effects.specs.Done.{bits_cleared, for_each};
ghost use Rattle.file_effects.specs.MapClears.{all_listed, bits_number, listed};
ghost use Rattle.file_effects.specs.Own.{is_replayed};
ghost use Rattle.file_effects.specs.Touched.{SparesBlocks, no_block_taken};

use crate::clearing::{ClearedBits, Clearing, Clears};
use cluster_tree::{FileFault, Tree};
use std::alloc::Global;
use storage_replay::{Files, map_bits};

fn bits_number(bits: ClearedBits) -> u8
    ensures value { result ≡ bits_number bits }
    ensures few { result < 4 }
{
    match bits {
        ClearedBits::Both => 3,
        ClearedBits::AllFrozen => 2,
    }
}

// Clears bits of a block, if there are any to clear.
fn clear_one<F: Tree>(
    alloc: Global,
    tree: &mut F,
    at: &Files,
    clearing: Option<Clearing>,
) -> Result<(), FileFault>
    requires fit { AreFit at.now }
    ensures exact { IsTrue F.tells → Does (for_each (bits_cleared at.now.root at.now.per_file)
        (listed clearing) (F.contents tree.old)) (F.contents tree.new) result }
    ensures frame { Came F.Tree tree.old tree.new }
    ensures own { IsTrue F.tells → OnOwn F.calls (is_replayed at.now.root) tree.old tree.new }
    ensures spares { IsTrue F.tells → SparesBlocks F.Tree at.now.root at.now.per_file
        no_block_taken tree.old tree.new }
    ensures read_fault { IsErrOf result FileFault.ReadFault →
        Rose (F.failed_reads tree.old) (F.failed_reads tree.new) }
    ensures write_fault { IsErrOf result FileFault.WriteFault →
        Rose (F.failed_changes tree.old) (F.failed_changes tree.new) }
    ensures changed { IsTrue F.tells → (p : PathValue) → result ≢ Err (FileFault.Changed p) }
{
    match clearing {
        None => Ok(()),
        Some(one) => {
            let bits = bits_number(one.bits);
            map_bits(alloc, tree, at, one.rel, one.block, bits)
        }
    }
}

/// Clears bits of blocks in the visibility map, in their order.
pub(crate) fn clear_bits<F: Tree>(
    alloc: Global,
    tree: &mut F,
    at: &Files,
    clears: Clears,
) -> Result<(), FileFault>
    requires fit { AreFit at.now }
    ensures exact { IsTrue F.tells → Does (for_each (bits_cleared at.now.root at.now.per_file)
        (all_listed clears) (F.contents tree.old)) (F.contents tree.new) result }
    ensures frame { Came F.Tree tree.old tree.new }
    ensures own { IsTrue F.tells → OnOwn F.calls (is_replayed at.now.root) tree.old tree.new }
    ensures spares { IsTrue F.tells → SparesBlocks F.Tree at.now.root at.now.per_file
        no_block_taken tree.old tree.new }
    ensures read_fault { IsErrOf result FileFault.ReadFault →
        Rose (F.failed_reads tree.old) (F.failed_reads tree.new) }
    ensures write_fault { IsErrOf result FileFault.WriteFault →
        Rose (F.failed_changes tree.old) (F.failed_changes tree.new) }
    ensures changed { IsTrue F.tells → (p : PathValue) → result ≢ Err (FileFault.Changed p) }
{
    clear_one(alloc, tree, at, clears.first)?;
    clear_one(alloc, tree, at, clears.second)
}
