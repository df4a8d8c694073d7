// pg_waldump.
ghost use Rattle.std.specs.Prelude.{◌≡◌, ◌≢◌, ◌≤◌, ◌⊎◌, ℕ, Bool, List, Err, IfErr, IsErrOf, IsTrue};
ghost use Rattle.cluster_tree.specs.Causes.{Rose};
ghost use Rattle.cluster_tree.specs.Contents.{Contents};
ghost use Rattle.cluster_tree.specs.Frame.{Reads};
ghost use Rattle.cluster_tree.specs.PathValue.{PathValue};
ghost use Rattle.cluster_tree.specs.declared.tree.ChangeCall.{ChangeCall};
ghost use Rattle.commands.specs.Fit.{IsFitWaldump};
ghost use Rattle.acts.specs.Acts.{Sunk, seen, sunk};
ghost use Rattle.run_acts.specs.Answers.{Blames, Carries};
ghost use Rattle.run_acts.specs.Causes.{cause_of, is_of_files};
ghost use Rattle.rmgr_hooks.specs.Custom.{handed_in};
ghost use Rattle.cmd_waldump.specs.Waldump.{AskForList, BreakRule, CarriesList, IsWaldump, waldump_answer};

use crate::managers::manager_list;
use crate::shows::show_log;
use cluster_tree::{Sink, Tree};
use commands::WaldumpWords;
use rmgr_hooks::Manager;
use run_acts::{Cause, tell};
use std::alloc::Global;

// Shows the names of the resource managers.
fn show_managers<O: Sink>(alloc: Global, out: &mut O) -> Result<(), Cause>
    ensures carries { (err_tells : Bool) (err : Sunk) (c : Contents) (k : List ChangeCall) →
        CarriesList O.tells err_tells (cause_of result)
        (seen c k (sunk (O.written out.old) (O.failed_writes out.old)) err)
        (seen c k (sunk (O.written out.new) (O.failed_writes out.new)) err) }
    ensures only { IfErr result (λ e. (e ≡ Cause.SinkFault) ⊎ (e ≡ Cause.OutOfMemory)) }
    ensures later { O.failed_writes out.old ≤ O.failed_writes out.new }
    ensures sink_fault { IsErrOf result Cause.SinkFault →
        Rose (O.failed_writes out.old) (O.failed_writes out.new) }
{
    match manager_list(alloc) {
        Ok(list) => tell(out, list.as_str()),
        Err(_) => Err(Cause::OutOfMemory),
    }
}

/// Shows the records of a log on `out`, or the names of the resource managers. It changes nothing. Where a
/// manager of an extension is handed in, the text of its records is its own.
///
/// The list needs no tree. A log is looked for by `find_log`, whose refusals come first, and shown by
/// `dump`, whose refusals leave the lines before them. `Usage` comes only where the words break a rule
/// that hangs on the size of segments. `ReadFault` and `SinkFault` come only where a read or a write
/// failed, which the tree or the sink has counted, and `OutOfMemory` only for want of memory; where a
/// read failed or memory was wanting, whole lines stand on `out`.
pub fn waldump<F: Tree, O: Sink, M: Manager>(
    alloc: Global,
    tree: &mut F,
    out: &mut O,
    words: &WaldumpWords,
    custom: Option<&M>,
) -> Result<(), Cause>
    requires { IsFitWaldump words.now }
    // the answer's acts, over every tree; the answer that is meant where the tree tells, and for the list
    ensures carries { (err_tells : Bool) (err : Sunk) → Carries
        (IsTrue F.tells ⊎ AskForList words.now)
        (waldump_answer (handed_in M.Manager custom.entry) (F.contents tree.old) words.now)
        (IsWaldump words.now) O.tells err_tells (cause_of result)
        (seen (F.contents tree.old) (F.calls tree.old)
        (sunk (O.written out.old) (O.failed_writes out.old)) err)
        (seen (F.contents tree.new) (F.calls tree.new)
        (sunk (O.written out.new) (O.failed_writes out.new)) err) }
    ensures blames { (n : ℕ) → Blames (cause_of result)
        (F.failed_reads tree.old) (F.failed_reads tree.new)
        (F.failed_changes tree.old) (F.failed_changes tree.new)
        (O.failed_writes out.old) (O.failed_writes out.new) n n }
    ensures only { IfErr result (λ e. IsTrue (is_of_files e) ⊎
        ((e ≡ Cause.Usage) × BreakRule words.now)) }
    ensures changed { (p : PathValue) → result ≢ Err (Cause.Changed p) }
    ensures apart { AskForList words.now → tree.new ≡ tree.old }
    ensures reads { Reads F.Tree tree.old tree.new }
{
    match words {
        WaldumpWords::Managers => show_managers(alloc, out),
        WaldumpWords::Dump(words) => show_log(alloc, tree, out, words, custom),
    }
}
