// The public call.
ghost use Rattle.std.specs.Prelude.{◌≡◌, ◌≢◌, ◌≤◌, length, IsTrue, Err, IsErrOf};
ghost use Rattle.cluster_tree.specs.Apart.{AreApart};
ghost use Rattle.cluster_tree.specs.PathValue.{PathValue};
ghost use Rattle.cluster_tree.specs.Causes.{Rose};
ghost use Rattle.cluster_tree.specs.Frame.{Reads};
ghost use Rattle.control_file.specs.Admission.{IsControl};
ghost use Rattle.control_file.specs.Reading.{timeline_of};
ghost use Rattle.timeline_history.specs.Ancestor.{divergence_of, last_tli};
ghost use Rattle.rewind_survey.specs.Survey.{Surveys, fork_in, from_controls, from_histories, survey_of};
ghost use Rattle.clusters.specs.declared.fault.ClusterFault.TheVariants as cluster;

use crate::RewindFault;
use crate::fitness::check_pair;
use crate::outcome::Surveyed;
use crate::parting::survey_parted;
use crate::roots::{check_marks, control_at, history_at, target_log};
use cluster_tree::{Path, Tree};
use clusters::segment_size;
use control_file::Control;
use std::alloc::Global;
use timeline_history::{Ancestor, Divergence, History, divergence};

// Where two histories part.
fn fork_of(a: &History, b: &History) -> Result<Divergence, RewindFault>
    requires { last_tli a.now ≢ last_tli b.now }
    ensures { result ≡ fork_in (divergence_of a.now b.now) }
{
    match divergence(a, b) {
        Ancestor::Common(fork) => Ok(fork),
        Ancestor::NoCommonAncestor => Err(RewindFault::NoCommonAncestor),
    }
}

// What a target needs that is on another timeline than the source.
#[tactic(auto, unfolding(crate::specs::Survey::from_histories))]
fn survey_apart<F: Tree>(
    alloc: Global,
    tree: &mut F,
    target: &Path,
    source: &Path,
    t: &Control,
    s: &Control,
) -> Result<Surveyed, RewindFault>
    requires target_depth { length target.now.parts ≤ 61 }
    requires source_depth { length source.now.parts ≤ 61 }
    requires control { IsControl t.now }
    requires apart { timeline_of t.now ≢ timeline_of s.now }
    ensures exact { IsTrue F.tells → Surveys (from_histories (F.contents tree.old) target.now
        source.now t.now s.now) result }
    ensures reads { Reads F.Tree tree.old tree.new }
    ensures read_fault { IsErrOf result (RewindFault.Cluster cluster.ReadFault) →
        Rose (F.failed_reads tree.old) (F.failed_reads tree.new) }
    ensures changed { IsTrue F.tells → (p : PathValue) →
        result ≢ Err (RewindFault.Cluster (cluster.Changed p)) }
    ensures never_writes { result ≢ Err RewindFault.WriteFault }
{
    let a = history_at(alloc, tree, target, t.timeline())?;
    let b = history_at(alloc, tree, source, s.timeline())?;
    let fork = fork_of(&a, &b)?;
    let mut cursor = target_log(alloc, target, t, &a)?;
    survey_parted(alloc, &mut cursor, tree, segment_size(t), t, fork)
}

// What a target needs, by both control files.
#[tactic(auto, unfolding(crate::specs::Survey::from_controls))]
fn survey_pair<F: Tree>(
    alloc: Global,
    tree: &mut F,
    target: &Path,
    source: &Path,
    t: &Control,
    s: &Control,
) -> Result<Surveyed, RewindFault>
    requires target_depth { length target.now.parts ≤ 61 }
    requires source_depth { length source.now.parts ≤ 61 }
    requires control { IsControl t.now }
    ensures exact { IsTrue F.tells → Surveys (from_controls (F.contents tree.old) target.now
        source.now t.now s.now) result }
    ensures reads { Reads F.Tree tree.old tree.new }
    ensures read_fault { IsErrOf result (RewindFault.Cluster cluster.ReadFault) →
        Rose (F.failed_reads tree.old) (F.failed_reads tree.new) }
    ensures changed { IsTrue F.tells → (p : PathValue) →
        result ≢ Err (RewindFault.Cluster (cluster.Changed p)) }
    ensures never_writes { result ≢ Err RewindFault.WriteFault }
{
    check_pair(alloc, target, source, t, s)?;
    if t.timeline() == s.timeline() {
        return Ok(Surveyed::SameTimeline);
    }
    survey_apart(alloc, tree, target, source, t, s)
}

/// Finds out what the target needs to follow the source's log. It changes nothing.
///
/// Answers that nothing is to be done where both clusters are on one timeline, or where the target's
/// log ends at their fork or below; else where they parted and what was touched since. Refuses with
/// the first fault of these: the marks of the target, then of the source; the control file
/// of the target, then of the source, and what the two must meet; the history of the target's
/// timeline, then of the source's, and their fork; the end of the target's log; the walk back to the
/// last common checkpoint; and the records of the target's log from that checkpoint's redo on.
pub fn survey<F: Tree>(
    alloc: Global,
    tree: &mut F,
    target: &Path,
    source: &Path,
) -> Result<Surveyed, RewindFault>
    requires target_depth { length target.now.parts ≤ 61 }
    requires source_depth { length source.now.parts ≤ 61 }
    requires apart { AreApart target.now source.now }
    // the answer is that of the first point that refuses, or what the clusters are; or a fault of the
    // device, or want of memory
    ensures exact { IsTrue F.tells → Surveys (survey_of (F.contents tree.old) target.now source.now)
        result }
    ensures reads { Reads F.Tree tree.old tree.new }
    ensures read_fault { IsErrOf result (RewindFault.Cluster cluster.ReadFault) →
        Rose (F.failed_reads tree.old) (F.failed_reads tree.new) }
    ensures changed { IsTrue F.tells → (p : PathValue) →
        result ≢ Err (RewindFault.Cluster (cluster.Changed p)) }
    ensures never_writes { result ≢ Err RewindFault.WriteFault }
{
    check_marks(alloc, tree, target)?;
    check_marks(alloc, tree, source)?;
    let t = control_at(alloc, tree, target)?;
    let s = control_at(alloc, tree, source)?;
    survey_pair(alloc, tree, target, source, &t, &s)
}
