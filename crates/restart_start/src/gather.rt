// The blocks that a log changes first, gathered while it is read once more.
ghost use Rattle.std.specs.Prelude.{◌≡◌, ◌≢◌, Err, IfOk, IsErrOf, IsTrue, None};
ghost use Rattle.cluster_tree.specs.Causes.{Rose};
ghost use Rattle.cluster_tree.specs.Frame.{Reads};
ghost use Rattle.cluster_tree.specs.PathValue.{PathValue};
ghost use Rattle.clusters.specs.declared.fault.ClusterFault.TheVariants as cluster;
ghost use Rattle.replay_start.specs.Steps.{IsFurther};
ghost use Rattle.restart_start.specs.Gathered.{GathersAll, GathersNext, TellsFirst};
ghost use Rattle.restart_start.specs.Records.{MovesOn, records_from};
ghost use Rattle.rmgr_hooks.specs.Custom.{handed_in};
ghost use Rattle.wal_records.specs.Cursor.{Knows, to_come};

use block_refs::{BlockName, Parts};
use cluster_tree::Tree;
use first_effects::FirstEffects;
use replay_profile::judge;
use replay_start::{Checked, ReplayFault};
use rmgr_hooks::Manager;
use std::alloc::Global;
use wal_records::{RecordCursor, Step};

/// How the reading of a log goes on.
#[derive(Clone, Copy)]
pub(crate) enum Turn {
    /// With the next record.
    More,
    /// No further.
    Done,
}

// Reads the next record, and gathers its effects.
fn gather_next<F: Tree, M: Manager>(
    cursor: &mut RecordCursor,
    tree: &mut F,
    parts: &mut Parts,
    firsts: &mut FirstEffects,
    custom: Option<&M>,
) -> Result<Turn, ReplayFault>
    requires opened { cursor.old.ended ≡ None }
    requires knows { IsTrue F.tells → Knows cursor.old (F.contents tree.old) }
    ensures step { IsTrue F.tells → GathersNext (handed_in M.Manager custom.entry)
        (to_come cursor.old (F.contents tree.old)).records
        (to_come cursor.new (F.contents tree.old)).records firsts.old firsts.new result }
    ensures moves { IfOk result (MovesOn cursor.old cursor.new) }
    ensures knows { IsTrue F.tells → Knows cursor.new (F.contents tree.new) }
    ensures log { cursor.new.log ≡ cursor.old.log }
    ensures reads { Reads F.Tree tree.old tree.new }
    ensures read_fault { IsErrOf result (ReplayFault.Cluster cluster.ReadFault) →
        Rose (F.failed_reads tree.old) (F.failed_reads tree.new) }
    ensures changed { (p : PathValue) → result ≢ Err (ReplayFault.Cluster (cluster.Changed p)) }
    ensures never_writes { result ≢ Err ReplayFault.WriteFault }
{
    match cursor.next_unchanged(tree)? {
        Step::Record => {}
        Step::End(_, _) => return Ok(Turn::Done),
    }
    let rec = cursor.current().unwrap();
    judge(rec, parts, custom)?;
    firsts.add_record(rec, parts, custom)?;
    Ok(Turn::More)
}

// Reads what a cursor has still to give, and gathers the effects of each record.
fn gather_all<F: Tree, M: Manager>(
    cursor: &mut RecordCursor,
    tree: &mut F,
    parts: &mut Parts,
    firsts: &mut FirstEffects,
    custom: Option<&M>,
) -> Result<(), ReplayFault>
    requires opened { cursor.old.ended ≡ None }
    requires knows { IsTrue F.tells → Knows cursor.old (F.contents tree.old) }
    ensures all { IsTrue F.tells → GathersAll (handed_in M.Manager custom.entry)
        (to_come cursor.old (F.contents tree.old)).records firsts.old firsts.new result }
    ensures knows { IsTrue F.tells → Knows cursor.new (F.contents tree.new) }
    ensures log { cursor.new.log ≡ cursor.old.log }
    ensures reads { Reads F.Tree tree.old tree.new }
    ensures read_fault { IsErrOf result (ReplayFault.Cluster cluster.ReadFault) →
        Rose (F.failed_reads tree.old) (F.failed_reads tree.new) }
    ensures changed { (p : PathValue) → result ≢ Err (ReplayFault.Cluster (cluster.Changed p)) }
    ensures never_writes { result ≢ Err ReplayFault.WriteFault }
{
    'records: loop {
        match gather_next(cursor, tree, parts, firsts, custom) {
            Ok(Turn::More) => {}
            Ok(Turn::Done) => return Ok(()),
            Err(e) => return Err(e),
        }
    }
}

/// The least block of a main fork whose first effect in the log of a cluster that was checked is a change,
/// if there is one. It reads the log once more, changes nothing, and keeps of the blocks their names.
///
/// Answers as `check` does where a record isn't taken, which it is where the tree tells; and `ReadFault`
/// and `OutOfMemory` at any point.
pub fn first_changed<F: Tree, M: Manager>(
    alloc: Global,
    tree: &mut F,
    checked: &mut Checked,
    custom: Option<&M>,
) -> Result<Option<BlockName>, ReplayFault>
    requires knows { IsTrue F.tells → Knows checked.old.cursor (F.contents tree.old) }
    ensures exact { IsTrue F.tells → TellsFirst (handed_in M.Manager custom.entry)
        (records_from checked.old (F.contents tree.old)) result }
    ensures knows { IsTrue F.tells → Knows checked.new.cursor (F.contents tree.new) }
    ensures log { checked.new.cursor.log ≡ checked.old.cursor.log }
    ensures control { checked.new.control ≡ checked.old.control }
    ensures label { checked.new.label ≡ checked.old.label }
    ensures end { checked.new.end ≡ checked.old.end }
    ensures reads { Reads F.Tree tree.old tree.new }
    ensures read_fault { IsErrOf result (ReplayFault.Cluster cluster.ReadFault) →
        Rose (F.failed_reads tree.old) (F.failed_reads tree.new) }
    ensures changed { (p : PathValue) → result ≢ Err (ReplayFault.Cluster (cluster.Changed p)) }
    ensures never_writes { result ≢ Err ReplayFault.WriteFault }
{
    let mut firsts = FirstEffects::new(alloc);
    checked.cursor.go_to(checked.label.start);
    gather_all(
        &mut checked.cursor,
        tree,
        &mut Parts::new(),
        &mut firsts,
        custom,
    )?;
    Ok(firsts.least_changed())
}
