// The report of a rewind.
ghost use Rattle.std.specs.Prelude.{◌≡◌, ◌≤◌, [], ◌∷◌, Bool, List, IfErr, IsErrOf};
ghost use Rattle.cluster_tree.specs.Causes.{Rose};
ghost use Rattle.cluster_tree.specs.Contents.{Contents};
ghost use Rattle.cluster_tree.specs.declared.tree.ChangeCall.{ChangeCall};
ghost use Rattle.acts.specs.Acts.{Performs, Report, Sunk, seen, sunk};
ghost use Rattle.run_acts.specs.Causes.{cause_of, ending_of};
ghost use Rattle.cmd_rewind.specs.Rewind.{all_done, no_rewind, same_timeline};
ghost use Rattle.cmd_rewind.specs.Tasks.{reported};

use crate::lines::Lines;
use cluster_tree::Sink;
use run_acts::{Cause, tell};

#[tactic(auto, unfolding(crate::specs::Rewind::same_timeline))]
fn same_timeline() -> &'static str
    ensures { result.now ≡ same_timeline }
{
    "pg_rewind: source and target cluster are on the same timeline\n"
}

#[tactic(auto, unfolding(crate::specs::Rewind::no_rewind))]
fn no_rewind() -> &'static str
    ensures { result.now ≡ no_rewind }
{
    "pg_rewind: no rewind required\n"
}

/// The line of a rewind that is done.
#[tactic(auto, unfolding(crate::specs::Rewind::all_done))]
pub fn all_done() -> &'static str
    ensures { result.now ≡ all_done }
{
    "pg_rewind: Done!\n"
}

// Reports two lines.
fn report_both<E: Sink>(err: &mut E, first: &str, second: &str) -> Result<(), Cause>
    ensures performs { (out_tells : Bool) (out : Sunk) (c : Contents) (k : List ChangeCall) →
        Performs out_tells E.tells (ending_of (cause_of result))
        (Report first.now ∷ Report second.now ∷ [])
        (seen c k out (sunk (E.written err.old) (E.failed_writes err.old)))
        (seen c k out (sunk (E.written err.new) (E.failed_writes err.new))) }
    ensures only { IfErr result (λ e. e ≡ Cause.SinkFault) }
    ensures sink_fault { IsErrOf result Cause.SinkFault →
        Rose (E.failed_writes err.old) (E.failed_writes err.new) }
    ensures later { E.failed_writes err.old ≤ E.failed_writes err.new }
{
    match tell(err, first) {
        Ok(()) => tell(err, second),
        Err(e) => Err(e),
    }
}

// Reports the two lines of a rewind, and that it is done.
fn report_rewind<E: Sink>(err: &mut E, first: &str, second: &str) -> Result<(), Cause>
    ensures performs { (out_tells : Bool) (out : Sunk) (c : Contents) (k : List ChangeCall) →
        Performs out_tells E.tells (ending_of (cause_of result))
        (Report first.now ∷ Report second.now ∷ Report all_done ∷ [])
        (seen c k out (sunk (E.written err.old) (E.failed_writes err.old)))
        (seen c k out (sunk (E.written err.new) (E.failed_writes err.new))) }
    ensures only { IfErr result (λ e. e ≡ Cause.SinkFault) }
    ensures sink_fault { IsErrOf result Cause.SinkFault →
        Rose (E.failed_writes err.old) (E.failed_writes err.new) }
    ensures later { E.failed_writes err.old ≤ E.failed_writes err.new }
{
    match tell(err, first) {
        Ok(()) => report_both(err, second, all_done()),
        Err(e) => Err(e),
    }
}

/// Reports what a target needs.
pub fn report<E: Sink>(err: &mut E, lines: &Lines) -> Result<(), Cause>
    ensures performs { (out_tells : Bool) (out : Sunk) (c : Contents) (k : List ChangeCall) →
        Performs out_tells E.tells (ending_of (cause_of result)) (reported lines.now)
        (seen c k out (sunk (E.written err.old) (E.failed_writes err.old)))
        (seen c k out (sunk (E.written err.new) (E.failed_writes err.new))) }
    ensures only { IfErr result (λ e. e ≡ Cause.SinkFault) }
    ensures sink_fault { IsErrOf result Cause.SinkFault →
        Rose (E.failed_writes err.old) (E.failed_writes err.new) }
    ensures later { E.failed_writes err.old ≤ E.failed_writes err.new }
{
    match lines {
        Lines::Same => report_both(err, same_timeline(), no_rewind()),
        Lines::AtFork(first) => report_both(err, first.as_str(), no_rewind()),
        Lines::Rewind(first, second) => report_rewind(err, first.as_str(), second.as_str()),
    }
}
