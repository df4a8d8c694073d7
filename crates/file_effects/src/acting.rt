// What a record does to files, carried out.
ghost use Rattle.std.specs.Prelude.{◌≡◌, ◌≢◌, IsTrue, Err, IsErrOf};
ghost use Rattle.block_refs.specs.Parts.{ArePartsOf};
ghost use Rattle.cluster_tree.specs.PathValue.{PathValue};
ghost use Rattle.cluster_tree.specs.Causes.{Rose};
ghost use Rattle.cluster_tree.specs.Frame.{Came};
ghost use Rattle.file_edits.specs.Answers.{Does};
ghost use Rattle.file_edits.specs.Own.{OnOwn};
ghost use Rattle.storage_replay.specs.Changes.{truncated};
ghost use Rattle.storage_replay.specs.Files.{AreFit};
ghost use Rattle.file_effects.specs.Done.{effect_done, files_after};
ghost use Rattle.file_effects.specs.Effect.{effect_in};
ghost use Rattle.file_effects.specs.Own.{is_replayed};
ghost use Rattle.file_effects.specs.Touched.{SparesBlocks, is_behind_cut, takes_block};

use crate::bits::clear_bits;
use crate::effect::{FileEffect, effect_in};
use crate::ending::end_transaction;
use crate::map_clears::clears_in;
use crate::multis::cut_multis;
use block_refs::{Parts, RelName};
use cluster_tree::{FileFault, Tree};
use slru_replay::{Area, add_multi, cut_before, zero_page};
use std::alloc::Global;
use storage_databases::{drop_database, make_database, write_relation_map};
use storage_replay::{Files, create, truncate};
use wal_records::Record;

// Cuts a relation to so many blocks, the forks that the flags say.
fn cut_relation<F: Tree>(
    alloc: Global,
    tree: &mut F,
    at: &Files,
    rel: RelName,
    blocks: u32,
    flags: u32,
) -> Result<(), FileFault>
    requires fit { AreFit at.now }
    ensures exact { IsTrue F.tells → Does (truncated at.now.root at.now.per_file rel blocks flags
        (F.contents tree.old)) (F.contents tree.new) result }
    ensures frame { Came F.Tree tree.old tree.new }
    ensures own { IsTrue F.tells → OnOwn F.calls (is_replayed at.now.root) tree.old tree.new }
    ensures spares { IsTrue F.tells → SparesBlocks F.Tree at.now.root at.now.per_file
        (is_behind_cut rel blocks flags) tree.old tree.new }
    ensures read_fault { IsErrOf result FileFault.ReadFault →
        Rose (F.failed_reads tree.old) (F.failed_reads tree.new) }
    ensures write_fault { IsErrOf result FileFault.WriteFault →
        Rose (F.failed_changes tree.old) (F.failed_changes tree.new) }
    ensures changed { IsTrue F.tells → (p : PathValue) → result ≢ Err (FileFault.Changed p) }
{
    truncate(alloc, tree, at, rel, blocks, flags)
}

// Carries out a record's effect.
fn carry_out<F: Tree>(
    alloc: Global,
    tree: &mut F,
    at: &Files,
    rec: &Record,
    parts: &Parts,
    effect: &FileEffect<'_>,
) -> Result<(), FileFault>
    requires fit { AreFit at.now }
    requires parts { ArePartsOf rec.now parts.now }
    ensures exact { IsTrue F.tells → Does (effect_done at.now.root at.now.per_file rec.now parts.now
        effect.now (F.contents tree.old)) (F.contents tree.new) result }
    ensures frame { Came F.Tree tree.old tree.new }
    ensures own { IsTrue F.tells → OnOwn F.calls (is_replayed at.now.root) tree.old tree.new }
    ensures spares { IsTrue F.tells → SparesBlocks F.Tree at.now.root at.now.per_file
        (takes_block effect.now) tree.old tree.new }
    ensures read_fault { IsErrOf result FileFault.ReadFault →
        Rose (F.failed_reads tree.old) (F.failed_reads tree.new) }
    ensures write_fault { IsErrOf result FileFault.WriteFault →
        Rose (F.failed_changes tree.old) (F.failed_changes tree.new) }
    ensures changed { IsTrue F.tells → (p : PathValue) → result ≢ Err (FileFault.Changed p) }
{
    match effect {
        FileEffect::Nothing => Ok(()),
        FileEffect::End(outcome, end) => {
            end_transaction(alloc, tree, at, rec.header().xid, *outcome, end)
        }
        FileEffect::Create(made) => create(alloc, tree, at, made.rel, made.fork),
        FileEffect::Truncate(cut) => {
            cut_relation(alloc, tree, at, cut.rel, cut.blocks, cut.flags)
        }
        FileEffect::ZeroPage(area, page) => zero_page(alloc, tree, &at.root, *area, *page),
        FileEffect::CutStatus(page) => cut_before(alloc, tree, &at.root, Area::Status, 0, *page),
        FileEffect::AddMulti => {
            add_multi(alloc, tree, &at.root, rec, parts)?;
            Ok(())
        }
        FileEffect::CutMultis(cut) => cut_multis(alloc, tree, at, *cut),
        FileEffect::WriteMap => {
            write_relation_map(alloc, tree, &at.root, rec, parts)?;
            Ok(())
        }
        FileEffect::MakeDatabase(database) => make_database(alloc, tree, &at.root, *database),
        FileEffect::DropDatabase(database) => drop_database(alloc, tree, &at.root, *database),
    }
}

/// Does to a cluster's files what a record does beside the blocks that it references. First the bits
/// of the visibility map are cleared that a heap operation says its blocks lose. Then the end of
/// a transaction sets its status and that of its subtransactions, and drops its relations; forks,
/// databases' folders, relation maps, multixacts and pages of status and multixacts are made, cut or
/// removed. Every other record changes nothing, nor does one whose fields aren't whole. The parts have
/// to be those of the record.
///
/// Answers what the calls of `storage_replay`, `slru_replay` and `storage_databases` do: `IsFolder` or
/// `Link` with the path of a file that is something else, `NotFolder`, `Link`, `NameNotText` or
/// `TooDeep` with that of a folder. What was done before stays.
pub fn act_on_files<F: Tree>(
    alloc: Global,
    tree: &mut F,
    at: &Files,
    rec: &Record,
    parts: &Parts,
) -> Result<(), FileFault>
    requires fit { AreFit at.now }
    requires parts { ArePartsOf rec.now parts.now }
    ensures exact { IsTrue F.tells → Does (files_after at.now.root at.now.per_file rec.now parts.now
        (F.contents tree.old)) (F.contents tree.new) result }
    ensures frame { Came F.Tree tree.old tree.new }
    ensures own { IsTrue F.tells → OnOwn F.calls (is_replayed at.now.root) tree.old tree.new }
    ensures spares { IsTrue F.tells → SparesBlocks F.Tree at.now.root at.now.per_file
        (takes_block (effect_in rec.now parts.now)) tree.old tree.new }
    ensures read_fault { IsErrOf result FileFault.ReadFault →
        Rose (F.failed_reads tree.old) (F.failed_reads tree.new) }
    ensures write_fault { IsErrOf result FileFault.WriteFault →
        Rose (F.failed_changes tree.old) (F.failed_changes tree.new) }
    ensures changed { IsTrue F.tells → (p : PathValue) → result ≢ Err (FileFault.Changed p) }
{
    let clears = clears_in(rec, parts);
    clear_bits(alloc, tree, at, clears)?;
    let effect = effect_in(rec, parts);
    carry_out(alloc, tree, at, rec, parts, &effect)
}
