//! What a record does to a cluster.

ghost use Rattle.std.specs.Prelude.{◌≡◌, ◌≢◌, Err, IsErrOf, IsTrue, MatchResult, None, Some, true};
ghost use Rattle.block_refs.specs.Parts.{ArePartsOf};
ghost use Rattle.cluster_tree.specs.Causes.{MeetsInto, Rose};
ghost use Rattle.cluster_tree.specs.Frame.{Came};
ghost use Rattle.cluster_tree.specs.PathValue.{PathValue};
ghost use Rattle.control_file.specs.Admission.{IsControl};
ghost use Rattle.file_edits.specs.Own.{OnOwn};
ghost use Rattle.storage_replay.specs.Files.{AreFit};
ghost use Rattle.block_replay.specs.Faults.{IsFreeFault};
ghost use Rattle.file_effects.specs.Own.{is_replayed};
ghost use Rattle.file_effects.specs.Touched.{SparesBlocks};
ghost use Rattle.replay_world.specs.Touched.{touches};
ghost use Rattle.replay_profile.specs.Profile.{is_in_profile};
ghost use Rattle.replay_world.specs.Records.{first_block, name_or_none, record_after, short_refusal};
ghost use Rattle.replay_world.specs.World.{world_of};
ghost use Rattle.rmgr_hooks.specs.Custom.{handed_in};

use crate::world::Replaying;
use block_refs::{BlockName, Fork, Parts, RelName};
use block_replay::{RecordFault, replay_blocks};
use cluster_tree::{FileFault, Tree};
use file_effects::act_on_files;
use page_layout::{Page, RedoWhy};
use replay_control::control_after;
use replay_profile::is_short;
use rmgr_hooks::Manager;
use std::alloc::Global;
use wal_records::Record;

/// A record's first block, or the main fork's first block of no relation.
fn first_name(parts: &Parts) -> BlockName
    ensures { result ≡ name_or_none (first_block parts.now) }
{
    match parts.get(0) {
        Some(block) => block.name,
        None => BlockName {
            rel: RelName {
                space: 0,
                database: 0,
                relation: 0,
            },
            fork: Fork::Main,
            block: 0,
        },
    }
}

/// Refuses a record whose main bytes lack some of its layout.
fn check_whole(rec: &Record, parts: &Parts) -> Result<(), RecordFault>
    requires parts { ArePartsOf rec.now parts.now }
    ensures { MatchResult result (λ _. short_refusal rec.now parts.now ≡ None)
        (λ e. short_refusal rec.now parts.now ≡ Some e) }
{
    if is_short(rec, parts) {
        let name = first_name(parts);
        return Err(RecordFault::RedoFailed(rec.start(), name, RedoWhy::Layout));
    }
    Ok(())
}

/// Does what a record does to a cluster: to the blocks that it references, in the order of their ids,
/// then to all other files, then to the control file that is to be written; and forgets the names of
/// skipped blocks that it takes away. The parts have to be those of the record, which replay takes.
/// `page` is room for one page, and open afterwards.
///
/// Answers, first in this order: `RedoFailed` with the record's start and its first block where its main
/// bytes lack some of its layout, what `replay_blocks` answers, and what `act_on_files` answers as
/// `File`. After a fault what was done before it stays, and what `world` keeps is open.
#[tactic(auto, unfolding(crate::specs::Records::record_after))]
pub fn replay_record<F: Tree, M: Manager>(
    alloc: Global,
    tree: &mut F,
    world: &mut Replaying,
    rec: &Record,
    parts: &Parts,
    page: &mut Page,
    custom: Option<&M>,
) -> Result<(), RecordFault>
    requires fit { AreFit world.old.files }
    requires parts { ArePartsOf rec.now parts.now }
    requires taken { is_in_profile (handed_in M.Manager custom) rec.now parts.now ≡ true }
    ensures exact { IsTrue F.tells → MeetsInto IsFreeFault
        (record_after (handed_in M.Manager custom.entry) world.old.files.root
        world.old.files.per_file rec.now parts.now
        (world_of (F.contents tree.old) world.old))
        (world_of (F.contents tree.new) world.new) result }
    ensures files { world.new.files ≡ world.old.files }
    ensures control { IsControl world.old.control → IsControl world.new.control }
    ensures frame { Came F.Tree tree.old tree.new }
    ensures own { IsTrue F.tells →
        OnOwn F.calls (is_replayed world.old.files.root) tree.old tree.new }
    ensures spares { IsTrue F.tells → SparesBlocks F.Tree world.old.files.root
        world.old.files.per_file (touches (handed_in M.Manager custom.entry) rec.now parts.now)
        tree.old tree.new }
    ensures read_fault { IsErrOf result (RecordFault.File FileFault.ReadFault) →
        Rose (F.failed_reads tree.old) (F.failed_reads tree.new) }
    ensures write_fault { IsErrOf result (RecordFault.File FileFault.WriteFault) →
        Rose (F.failed_changes tree.old) (F.failed_changes tree.new) }
    ensures changed { IsTrue F.tells → (p : PathValue) →
        result ≢ Err (RecordFault.File (FileFault.Changed p)) }
{
    check_whole(rec, parts)?;
    replay_blocks(
        alloc,
        tree,
        &world.files,
        &mut world.skipped,
        rec,
        parts,
        page,
        custom,
    )?;
    act_on_files(alloc, tree, &world.files, rec, parts)?;
    world.control = control_after(rec, parts, &world.control);
    world.skipped.forget(rec, parts);
    Ok(())
}
