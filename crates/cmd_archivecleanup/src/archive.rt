// The files of an archive that go.
ghost use Rattle.std.specs.Prelude.{◌≡◌, ◌≢◌, ◌⊎◌, ℕ, List, None, Some, true, Err, IfErr, IfOk, IsErrOf, IsTrue, MatchResult, option_map};
ghost use Rattle.std.specs.List.{list_all};
ghost use Rattle.cluster_tree.specs.Causes.{Rose};
ghost use Rattle.cluster_tree.specs.Contents.{entry_at};
ghost use Rattle.cluster_tree.specs.Folders.{list_refusal};
ghost use Rattle.cluster_tree.specs.Frame.{Reads};
ghost use Rattle.cluster_tree.specs.PathValue.{PathValue, is_part};
ghost use Rattle.cluster_tree.specs.declared.tree.TreeFault.{TreeFault};
ghost use Rattle.commands.specs.Fit.{IsFitArchivecleanup};
ghost use Rattle.run_acts.specs.Answers.{refused};
ghost use Rattle.run_acts.specs.Causes.{IsFree, IsOfLook, is_of_files};
ghost use Rattle.cmd_archivecleanup.specs.Archivecleanup.{archivecleanup_answer, folder_cause, going, gone};

use cluster_tree::{Names, Path, Tree, TreeFault};
use commands::ArchivecleanupWords;
use reset_cleanup::cleanup_list;
use run_acts::{Cause, PathCause};
use std::alloc::Global;

// Why the names of a folder aren't known.
fn folder_cause(alloc: Global, folder: &Path, fault: TreeFault) -> Cause
    ensures value { (result ≡ folder_cause folder.now fault) ⊎ (result ≡ Cause.OutOfMemory) }
    ensures look { IsOfLook result }
    ensures only { IsTrue (is_of_files result) }
    ensures read { result ≡ Cause.ReadFault → fault ≡ TreeFault.Failed }
    ensures changed { (p : PathValue) → result ≢ Cause.Changed p }
{
    let path = match folder.copy(alloc) {
        Ok(path) => path,
        Err(_) => return Cause::OutOfMemory,
    };
    match fault {
        TreeFault::Failed => Cause::ReadFault,
        TreeFault::OutOfMemory => Cause::OutOfMemory,
        TreeFault::Link => Cause::Paths(PathCause::Link(path)),
        TreeFault::NameNotText => Cause::Paths(PathCause::NameNotText(path)),
        _ => Cause::Paths(PathCause::NotFolder(path)),
    }
}

fn extension_of(words: &ArchivecleanupWords) -> Option<&str>
    ensures { option_map (λ s. s.now) result ≡ words.now.extension }
{
    match &words.extension {
        None => None,
        Some(extension) => Some(extension.as_str()),
    }
}

/// The names of the files that go, in ascending order. Answers `NotFolder`, `Link` or `NameNotText`
/// where the archive's names aren't known.
pub(crate) fn gone<F: Tree>(
    alloc: Global,
    tree: &mut F,
    words: &ArchivecleanupWords,
) -> Result<Names, Cause>
    requires { IsFitArchivecleanup words.now }
    ensures exact { IsTrue F.tells → MatchResult result
        (λ names. (list_refusal (entry_at (F.contents tree.old) words.now.folder) ≡ None)
        × (names ≡ gone (F.contents tree.old) words.now))
        (λ e. IsFree e ⊎ (archivecleanup_answer (F.contents tree.old) words.now ≡ refused e)) }
    ensures listed { IfOk result (λ names. (listed : List (List ℕ)) ×
        (names ≡ going listed words.now)) }
    ensures parts { IfOk result (λ names. list_all is_part names ≡ true) }
    ensures look { IfErr result IsOfLook }
    ensures only { IfErr result (λ e. IsTrue (is_of_files e)) }
    ensures reads { Reads F.Tree tree.old tree.new }
    ensures read_fault { IsErrOf result Cause.ReadFault →
        Rose (F.failed_reads tree.old) (F.failed_reads tree.new) }
    ensures changed { (p : PathValue) → result ≢ Err (Cause.Changed p) }
{
    match tree.list(alloc, &words.folder) {
        Ok(names) => match cleanup_list(alloc, &names, words.kept.as_str(), extension_of(words)) {
            Ok(Some(gone)) => Ok(gone),
            Ok(None) => unreachable!(),
            Err(_) => Err(Cause::OutOfMemory),
        },
        Err(fault) => Err(folder_cause(alloc, &words.folder, fault)),
    }
}
