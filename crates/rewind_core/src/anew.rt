// A rewind that is begun anew, over its own mark that isn't whole.
ghost use Rattle.std.specs.Prelude.{Err, IfOk, IsErrOf, IsTrue, length, ◌<◌, ◌≢◌, ◌≤◌};
ghost use Rattle.cluster_tree.specs.Apart.{AreApart};
ghost use Rattle.cluster_tree.specs.Causes.{Rose};
ghost use Rattle.cluster_tree.specs.Frame.{Reads};
ghost use Rattle.cluster_tree.specs.PathValue.{PathValue};
ghost use Rattle.clusters.specs.declared.fault.ClusterFault.TheVariants as cluster;
ghost use Rattle.rewind_core.specs.Fits.{IsFitPlanned, IsMadeBetween, IsSaidPlanned, Plans};
ghost use Rattle.rewind_core.specs.Planned.{planned_of};
ghost use Rattle.rewind_core.specs.Over.{without_own};
ghost use Rattle.without_file.specs.Without.{without_file};

use crate::outcome::Planned;
use crate::planning::plan;
use cluster_tree::{Path, Tree};
use clusters::path_in;
use rewind_survey::RewindFault;
use std::alloc::Global;
use without_file::WithoutFile;

// Plans as if no file stood at this mark.
fn plan_without<F: Tree>(
    alloc: Global,
    tree: &mut F,
    mark: &Path,
    target: &Path,
    source: &Path,
    now: i64,
) -> Result<Planned, RewindFault>
    requires deep { 0 < length mark.now.parts }
    requires target_depth { length target.now.parts ≤ 61 }
    requires source_depth { length source.now.parts ≤ 61 }
    requires apart { AreApart target.now source.now }
    ensures exact { IsTrue F.tells → Plans (without_file (F.contents tree.old) mark.now) (planned_of
        (without_file (F.contents tree.old) mark.now) target.now source.now now) result }
    ensures made { IfOk result (IsMadeBetween target.now source.now) }
    ensures said { IsTrue F.tells → IfOk result (IsSaidPlanned
        (without_file (F.contents tree.old) mark.now) target.now source.now) }
    ensures fit { IfOk result IsFitPlanned }
    ensures reads { Reads F.Tree tree.old tree.new }
    ensures read_fault { IsErrOf result (RewindFault.Cluster cluster.ReadFault) →
        Rose (F.failed_reads tree.old) (F.failed_reads tree.new) }
    ensures changed { IsTrue F.tells → (p : PathValue) →
        result ≢ Err (RewindFault.Cluster (cluster.Changed p)) }
    ensures never_writes { result ≢ Err RewindFault.WriteFault }
{
    let mut seen = WithoutFile { tree, file: mark };
    plan(alloc, &mut seen, target, source, now)
}

/// Plans as `plan` does, as if no file stood at the target's own mark of a rewind. So a rewind is begun
/// anew over a mark that isn't whole.
///
/// Answers as `plan` does.
pub fn plan_anew<F: Tree>(
    alloc: Global,
    tree: &mut F,
    target: &Path,
    source: &Path,
    now: i64,
) -> Result<Planned, RewindFault>
    requires target_depth { length target.now.parts ≤ 61 }
    requires source_depth { length source.now.parts ≤ 61 }
    requires apart { AreApart target.now source.now }
    ensures exact { IsTrue F.tells → Plans (without_own (F.contents tree.old) target.now) (planned_of
        (without_own (F.contents tree.old) target.now) target.now source.now now) result }
    ensures made { IfOk result (IsMadeBetween target.now source.now) }
    ensures said { IsTrue F.tells → IfOk result (IsSaidPlanned
        (without_own (F.contents tree.old) target.now) target.now source.now) }
    ensures fit { IfOk result IsFitPlanned }
    ensures reads { Reads F.Tree tree.old tree.new }
    ensures read_fault { IsErrOf result (RewindFault.Cluster cluster.ReadFault) →
        Rose (F.failed_reads tree.old) (F.failed_reads tree.new) }
    ensures changed { IsTrue F.tells → (p : PathValue) →
        result ≢ Err (RewindFault.Cluster (cluster.Changed p)) }
    ensures never_writes { result ≢ Err RewindFault.WriteFault }
{
    let mark = path_in(alloc, target, "pg_rewind.unfinished")?;
    plan_without(alloc, tree, &mark, target, source, now)
}
