// The faults of files and of walks as causes.
ghost use Rattle.std.specs.Prelude.{◌≡◌, ◌≢◌, ◌⊎◌, IsTrue};
ghost use Rattle.cluster_tree.specs.PathValue.{PathValue};
ghost use Rattle.cluster_tree.specs.declared.file_fault.FileFault.TheVariants as file;
ghost use Rattle.run_acts.specs.Causes.{IsOfLook, is_deep, is_of_files};
ghost use Rattle.cluster_causes.specs.Walks.{file_cause, walk_cause};

use cluster_tree::FileFault;
use file_walk::WalkFault;
use run_acts::{Cause, PathCause, RewindCause};

/// The cause that a fault of files has. It comes while the command looks, and is one of files, but
/// where a path has too many parts, and where a change failed.
pub fn file_cause(fault: FileFault) -> Cause
    ensures value { result ≡ file_cause fault }
    ensures look { IsOfLook result ⊎ (fault ≡ FileFault.WriteFault) }
    ensures files { IsTrue (is_of_files result) ⊎ IsTrue (is_deep result) ⊎
        (fault ≡ FileFault.WriteFault) }
    ensures read { result ≡ Cause.ReadFault → fault ≡ FileFault.ReadFault }
    ensures write { result ≡ Cause.WriteFault → fault ≡ FileFault.WriteFault }
    ensures sink { result ≢ Cause.SinkFault }
    ensures changed { (p : PathValue) → result ≡ Cause.Changed p → fault ≡ FileFault.Changed p }
{
    match fault {
        FileFault::ReadFault => Cause::ReadFault,
        FileFault::WriteFault => Cause::WriteFault,
        FileFault::Link(path) => Cause::Paths(PathCause::Link(path)),
        FileFault::NotFolder(path) => Cause::Paths(PathCause::NotFolder(path)),
        FileFault::IsFolder(path) => Cause::Rewind(RewindCause::KindsDiffer(path)),
        FileFault::NameNotText(path) => Cause::Paths(PathCause::NameNotText(path)),
        FileFault::TooDeep(path) => Cause::Paths(PathCause::TooDeep(path)),
        FileFault::Changed(path) => Cause::Changed(path),
        FileFault::OutOfMemory => Cause::OutOfMemory,
    }
}

/// The cause that a fault of a walk has: that of the file's fault where it holds one.
pub fn walk_cause(fault: WalkFault) -> Cause
    ensures value { result ≡ walk_cause fault }
    ensures look { IsOfLook result ⊎ (fault ≡ WalkFault.File file.WriteFault) }
    ensures files { IsTrue (is_of_files result) ⊎ IsTrue (is_deep result) ⊎
        (fault ≡ WalkFault.File file.WriteFault) }
    ensures read { result ≡ Cause.ReadFault → fault ≡ WalkFault.File file.ReadFault }
    ensures write { result ≡ Cause.WriteFault → fault ≡ WalkFault.File file.WriteFault }
    ensures sink { result ≢ Cause.SinkFault }
    ensures changed { (p : PathValue) →
        result ≡ Cause.Changed p → fault ≡ WalkFault.File (file.Changed p) }
{
    match fault {
        WalkFault::Link(path) => Cause::Paths(PathCause::Link(path)),
        WalkFault::NameNotText(path) => Cause::Paths(PathCause::NameNotText(path)),
        WalkFault::TooDeep(path) => Cause::Paths(PathCause::TooDeep(path)),
        WalkFault::OddSize(path, bytes) => Cause::Rewind(RewindCause::OddSize(path, bytes)),
        WalkFault::File(fault) => file_cause(fault),
    }
}
