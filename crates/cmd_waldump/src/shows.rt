// A log, shown.
ghost use Rattle.std.specs.Prelude.{◌≡◌, ◌≢◌, ◌≤◌, ◌⊎◌, ℕ, Bool, Err, IfErr, IsErrOf, IsTrue, length};
ghost use Rattle.cluster_tree.specs.Causes.{Rose};
ghost use Rattle.cluster_tree.specs.Frame.{Reads};
ghost use Rattle.cluster_tree.specs.PathValue.{PathValue};
ghost use Rattle.commands.specs.Fit.{IsFitFolder};
ghost use Rattle.log_folder.specs.Found.{IsMisused, found_in};
ghost use Rattle.acts.specs.Acts.{Sunk, seen, sunk};
ghost use Rattle.run_acts.specs.Answers.{Blames, Carries};
ghost use Rattle.run_acts.specs.Causes.{cause_of, is_of_files};
ghost use Rattle.rmgr_hooks.specs.Custom.{handed_in};
ghost use Rattle.cmd_waldump.specs.Waldump.{IsDump, found_answer, log_answer};

use crate::causes::{dump_cause, folder_cause};
use cluster_tree::{Sink, Tree};
use commands::DumpWords;
use log_folder::{FoundLog, find_log};
use rmgr_hooks::Manager;
use run_acts::Cause;
use std::alloc::Global;
use waldump_core::dump_with;

// Shows a log that was found.
fn show_found<F: Tree, O: Sink, M: Manager>(
    alloc: Global,
    tree: &mut F,
    out: &mut O,
    found: FoundLog,
    custom: Option<&M>,
) -> Result<(), Cause>
    requires room { length found.log.folder.parts ≤ 63 }
    ensures carries { (err_tells : Bool) (err : Sunk) → Carries (IsTrue F.tells)
        (log_answer (handed_in M.Manager custom.entry) (F.contents tree.old) found) IsDump
        O.tells err_tells (cause_of result)
        (seen (F.contents tree.old) (F.calls tree.old)
        (sunk (O.written out.old) (O.failed_writes out.old)) err)
        (seen (F.contents tree.new) (F.calls tree.new)
        (sunk (O.written out.new) (O.failed_writes out.new)) err) }
    ensures only { IfErr result (λ e. IsTrue (is_of_files e)) }
    ensures changed { (p : PathValue) → result ≢ Err (Cause.Changed p) }
    ensures reads { Reads F.Tree tree.old tree.new }
    ensures read_fault { IsErrOf result Cause.ReadFault →
        Rose (F.failed_reads tree.old) (F.failed_reads tree.new) }
    ensures later { O.failed_writes out.old ≤ O.failed_writes out.new }
    ensures sink_fault { IsErrOf result Cause.SinkFault →
        Rose (O.failed_writes out.old) (O.failed_writes out.new) }
{
    match dump_with(alloc, tree, out, found.log, &found.sel, custom) {
        Ok(_) => Ok(()),
        Err(fault) => Err(dump_cause(fault)),
    }
}

/// Shows the records of the log that the words name.
pub(crate) fn show_log<F: Tree, O: Sink, M: Manager>(
    alloc: Global,
    tree: &mut F,
    out: &mut O,
    words: &DumpWords,
    custom: Option<&M>,
) -> Result<(), Cause>
    requires { IsFitFolder words.now.folder }
    ensures carries { (err_tells : Bool) (err : Sunk) → Carries (IsTrue F.tells)
        (found_answer (handed_in M.Manager custom.entry) (F.contents tree.old)
        (found_in (F.contents tree.old) words.now)) IsDump O.tells err_tells (cause_of result)
        (seen (F.contents tree.old) (F.calls tree.old)
        (sunk (O.written out.old) (O.failed_writes out.old)) err)
        (seen (F.contents tree.new) (F.calls tree.new)
        (sunk (O.written out.new) (O.failed_writes out.new)) err) }
    ensures blames { (n : ℕ) → Blames (cause_of result)
        (F.failed_reads tree.old) (F.failed_reads tree.new)
        (F.failed_changes tree.old) (F.failed_changes tree.new)
        (O.failed_writes out.old) (O.failed_writes out.new) n n }
    ensures only { IfErr result (λ e. IsTrue (is_of_files e) ⊎
        ((e ≡ Cause.Usage) × IsMisused words.now)) }
    ensures changed { (p : PathValue) → result ≢ Err (Cause.Changed p) }
    ensures reads { Reads F.Tree tree.old tree.new }
{
    match find_log(alloc, tree, words) {
        Ok(found) => show_found(alloc, tree, out, found, custom),
        Err(fault) => Err(folder_cause(fault)),
    }
}
