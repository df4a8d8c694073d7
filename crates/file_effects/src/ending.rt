// The end of a transaction.
ghost use Rattle.std.specs.Prelude.{◌≡◌, ◌≢◌, ◌<◌, length, slice_get, Some, IsTrue, Err, IsErrOf};
ghost use Rattle.cluster_tree.specs.PathValue.{PathValue};
ghost use Rattle.cluster_tree.specs.Causes.{Rose};
ghost use Rattle.cluster_tree.specs.Frame.{Came};
ghost use Rattle.file_edits.specs.Answers.{Does};
ghost use Rattle.file_edits.specs.Own.{OnOwn};
ghost use Rattle.storage_replay.specs.Changes.{relation_dropped};
ghost use Rattle.storage_replay.specs.Files.{AreFit};
ghost use Rattle.file_effects.specs.Done.{for_each, own_xid, status_of, statuses_set, transaction_ended};
ghost use Rattle.file_effects.specs.Own.{is_replayed};
ghost use Rattle.file_effects.specs.Touched.{SparesBlocks, is_among_dropped, no_block_taken};

use block_refs::RelName;
use cluster_tree::{FileFault, Tree};
use record_layouts::{Item, Items, Outcome, TransactionEnd};
use slru_replay::set_status;
use std::alloc::Global;
use storage_replay::{Files, drop_relation};

fn status_of(outcome: Outcome) -> u8
    ensures value { result ≡ status_of outcome }
    ensures bits { result < 4 }
{
    match outcome {
        Outcome::Commit => 1,
        Outcome::Abort => 2,
    }
}

// The item at a place of a list.
#[tactic(auto, using(std::proofs::lemmas::Option::gets))]
fn item_at<T: Item>(items: &Items<'_, T>, at: usize) -> T
    requires { at < length items.now }
    ensures { slice_get items.now at ≡ Some result }
{
    match items.get(at) {
        Some(item) => item,
        None => unreachable!(),
    }
}

// Sets the status of a record's own transaction, if it has one.
fn set_own<F: Tree>(
    alloc: Global,
    tree: &mut F,
    at: &Files,
    xid: u32,
    status: u8,
) -> Result<(), FileFault>
    requires fit { AreFit at.now }
    requires bits { status < 4 }
    ensures exact { IsTrue F.tells → Does (statuses_set at.now.root status (own_xid xid)
        (F.contents tree.old)) (F.contents tree.new) result }
    ensures frame { Came F.Tree tree.old tree.new }
    ensures own { IsTrue F.tells → OnOwn F.calls (is_replayed at.now.root) tree.old tree.new }
    ensures spares { IsTrue F.tells → SparesBlocks F.Tree at.now.root at.now.per_file
        no_block_taken tree.old tree.new }
    ensures read_fault { IsErrOf result FileFault.ReadFault →
        Rose (F.failed_reads tree.old) (F.failed_reads tree.new) }
    ensures write_fault { IsErrOf result FileFault.WriteFault →
        Rose (F.failed_changes tree.old) (F.failed_changes tree.new) }
    ensures changed { IsTrue F.tells → (p : PathValue) → result ≢ Err (FileFault.Changed p) }
{
    if xid == 0 {
        return Ok(());
    }
    set_status(alloc, tree, &at.root, xid, status)
}

// Sets the status of transactions, in turn.
fn set_statuses<F: Tree>(
    alloc: Global,
    tree: &mut F,
    at: &Files,
    xids: &Items<'_, u32>,
    status: u8,
) -> Result<(), FileFault>
    requires fit { AreFit at.now }
    requires bits { status < 4 }
    ensures exact { IsTrue F.tells → Does (statuses_set at.now.root status xids.now
        (F.contents tree.old)) (F.contents tree.new) result }
    ensures frame { Came F.Tree tree.old tree.new }
    ensures own { IsTrue F.tells → OnOwn F.calls (is_replayed at.now.root) tree.old tree.new }
    ensures spares { IsTrue F.tells → SparesBlocks F.Tree at.now.root at.now.per_file
        no_block_taken tree.old tree.new }
    ensures read_fault { IsErrOf result FileFault.ReadFault →
        Rose (F.failed_reads tree.old) (F.failed_reads tree.new) }
    ensures write_fault { IsErrOf result FileFault.WriteFault →
        Rose (F.failed_changes tree.old) (F.failed_changes tree.new) }
    ensures changed { IsTrue F.tells → (p : PathValue) → result ≢ Err (FileFault.Changed p) }
{
    for place in 0..xids.len() {
        let xid = item_at(xids, place);
        set_status(alloc, tree, &at.root, xid, status)?;
    }
    Ok(())
}

// Drops relations, in turn.
fn drop_relations<F: Tree>(
    alloc: Global,
    tree: &mut F,
    at: &Files,
    rels: &Items<'_, RelName>,
) -> Result<(), FileFault>
    requires fit { AreFit at.now }
    ensures exact { IsTrue F.tells → Does (for_each (relation_dropped at.now.root) rels.now
        (F.contents tree.old)) (F.contents tree.new) result }
    ensures frame { Came F.Tree tree.old tree.new }
    ensures own { IsTrue F.tells → OnOwn F.calls (is_replayed at.now.root) tree.old tree.new }
    ensures spares { IsTrue F.tells → SparesBlocks F.Tree at.now.root at.now.per_file
        (is_among_dropped rels.now) tree.old tree.new }
    ensures read_fault { IsErrOf result FileFault.ReadFault →
        Rose (F.failed_reads tree.old) (F.failed_reads tree.new) }
    ensures write_fault { IsErrOf result FileFault.WriteFault →
        Rose (F.failed_changes tree.old) (F.failed_changes tree.new) }
    ensures changed { IsTrue F.tells → (p : PathValue) → result ≢ Err (FileFault.Changed p) }
{
    for place in 0..rels.len() {
        let rel = item_at(rels, place);
        drop_relation(alloc, tree, at, rel)?;
    }
    Ok(())
}

/// Ends a transaction: it, where the record has one, and its subtransactions get its outcome as their
/// status, and then its relations are dropped.
pub(crate) fn end_transaction<F: Tree>(
    alloc: Global,
    tree: &mut F,
    at: &Files,
    xid: u32,
    outcome: Outcome,
    end: &TransactionEnd<'_>,
) -> Result<(), FileFault>
    requires fit { AreFit at.now }
    ensures exact { IsTrue F.tells → Does (transaction_ended at.now.root xid outcome end.now
        (F.contents tree.old)) (F.contents tree.new) result }
    ensures frame { Came F.Tree tree.old tree.new }
    ensures own { IsTrue F.tells → OnOwn F.calls (is_replayed at.now.root) tree.old tree.new }
    ensures spares { IsTrue F.tells → SparesBlocks F.Tree at.now.root at.now.per_file
        (is_among_dropped end.now.dropped) tree.old tree.new }
    ensures read_fault { IsErrOf result FileFault.ReadFault →
        Rose (F.failed_reads tree.old) (F.failed_reads tree.new) }
    ensures write_fault { IsErrOf result FileFault.WriteFault →
        Rose (F.failed_changes tree.old) (F.failed_changes tree.new) }
    ensures changed { IsTrue F.tells → (p : PathValue) → result ≢ Err (FileFault.Changed p) }
{
    let status = status_of(outcome);
    set_own(alloc, tree, at, xid, status)?;
    set_statuses(alloc, tree, at, &end.subxacts, status)?;
    drop_relations(alloc, tree, at, &end.dropped)
}
