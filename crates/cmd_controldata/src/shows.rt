// The control file of a cluster, shown.
ghost use Rattle.std.specs.Prelude.{◌≡◌, ◌≢◌, ◌⊎◌, ℕ, Bool, [], ◌∷◌, Ok, Err, IfErr, IfOk, IsErrOf, IsTrue, MatchResult};
ghost use Rattle.cluster_tree.specs.Causes.{Rose};
ghost use Rattle.cluster_tree.specs.Frame.{Reads};
ghost use Rattle.cluster_tree.specs.PathValue.{PathValue};
ghost use Rattle.control_file.specs.Admission.{IsControl};
ghost use Rattle.clusters.specs.RootControl.{control_at};
ghost use Rattle.commands.specs.Fit.{IsFitRoot};
ghost use Rattle.acts.specs.Acts.{Print, Sunk, seen, sunk};
ghost use Rattle.run_acts.specs.Answers.{Blames, Carries, does, refused};
ghost use Rattle.run_acts.specs.Causes.{IsFree, IsOfLook, cause_of, is_of_files};
ghost use Rattle.cmd_controldata.specs.Controldata.{IsControldata, control_answer, controldata_answer};

use cluster_causes::cluster_cause;
use cluster_tree::{Path, Sink, Tree};
use clusters::control_at;
use commands::ControldataWords;
use control_file::{Control, control_text};
use run_acts::{Cause, tell};
use std::alloc::Global;
use wal_base::Text;

// What the control file of a root says.
fn control_of<F: Tree>(alloc: Global, tree: &mut F, root: &Path) -> Result<Control, Cause>
    requires { IsFitRoot root.now }
    ensures exact { IsTrue F.tells → MatchResult result
        (λ control. control_at (F.contents tree.old) root.now ≡ Ok control)
        (λ e. IsFree e ⊎ (control_answer (control_at (F.contents tree.old) root.now) ≡ refused e)) }
    ensures control { IfOk result IsControl }
    ensures look { IfErr result IsOfLook }
    ensures only { IfErr result (λ e. IsTrue (is_of_files e)) }
    ensures reads { Reads F.Tree tree.old tree.new }
    ensures read_fault { IsErrOf result Cause.ReadFault →
        Rose (F.failed_reads tree.old) (F.failed_reads tree.new) }
    ensures changed { IsTrue F.tells → (p : PathValue) → result ≢ Err (Cause.Changed p) }
{
    match control_at(alloc, tree, root) {
        Ok(control) => Ok(control),
        Err(fault) => Err(cluster_cause(fault)),
    }
}

// The text of the control file of a root.
fn text_of<F: Tree>(alloc: Global, tree: &mut F, root: &Path) -> Result<Text, Cause>
    requires { IsFitRoot root.now }
    ensures exact { IsTrue F.tells → MatchResult result
        (λ text. does (Print text ∷ [])
        ≡ control_answer (control_at (F.contents tree.old) root.now))
        (λ e. IsFree e ⊎ (control_answer (control_at (F.contents tree.old) root.now) ≡ refused e)) }
    ensures look { IfErr result IsOfLook }
    ensures only { IfErr result (λ e. IsTrue (is_of_files e)) }
    ensures reads { Reads F.Tree tree.old tree.new }
    ensures read_fault { IsErrOf result Cause.ReadFault →
        Rose (F.failed_reads tree.old) (F.failed_reads tree.new) }
    ensures changed { IsTrue F.tells → (p : PathValue) → result ≢ Err (Cause.Changed p) }
{
    let control = control_of(alloc, tree, root)?;
    match control_text(alloc, &control) {
        Ok(text) => Ok(text),
        Err(_) => Err(Cause::OutOfMemory),
    }
}

/// Shows the control file of a cluster on `out`. It changes nothing.
///
/// Answers what keeps the control file from being read: `Control`, with the root, where it is missing
/// or refused. `ReadFault` and `SinkFault` come only where a read or the write failed, which the tree
/// or the sink has counted, `Changed` never where the tree tells its contents, and `OutOfMemory` only
/// for want of memory. Only a done run and one whose write failed leave anything on `out`.
pub fn controldata<F: Tree, O: Sink>(
    alloc: Global,
    tree: &mut F,
    out: &mut O,
    words: &ControldataWords,
) -> Result<(), Cause>
    requires { IsFitRoot words.now.root }
    // the answer's acts, over every tree; the answer that is meant where the tree tells
    ensures carries { (err_tells : Bool) (err : Sunk) → Carries (IsTrue F.tells)
        (controldata_answer (F.contents tree.old) words.now) IsControldata O.tells err_tells
        (cause_of result)
        (seen (F.contents tree.old) (F.calls tree.old)
        (sunk (O.written out.old) (O.failed_writes out.old)) err)
        (seen (F.contents tree.new) (F.calls tree.new)
        (sunk (O.written out.new) (O.failed_writes out.new)) err) }
    ensures blames { (n : ℕ) → Blames (cause_of result)
        (F.failed_reads tree.old) (F.failed_reads tree.new)
        (F.failed_changes tree.old) (F.failed_changes tree.new)
        (O.failed_writes out.old) (O.failed_writes out.new) n n }
    ensures only { IfErr result (λ e. IsTrue (is_of_files e)) }
    ensures changed { IsTrue F.tells → (p : PathValue) → result ≢ Err (Cause.Changed p) }
    ensures reads { Reads F.Tree tree.old tree.new }
{
    match text_of(alloc, tree, &words.root) {
        Ok(text) => tell(out, text.as_str()),
        Err(e) => Err(e),
    }
}
