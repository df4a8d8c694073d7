// Why a log isn't found, or its dump is refused, as causes of a run.
ghost use Rattle.std.specs.Prelude.{◌≡◌, ◌⊎◌, IsTrue};
ghost use Rattle.run_acts.specs.Causes.{IsOfLook, ending_of, is_of_files};
ghost use Rattle.waldump_core.specs.Texts.{ending_by};
ghost use Rattle.log_folder.specs.declared.fault.FolderFault.TheVariants as folder_fault;
ghost use Rattle.cmd_waldump.specs.Causes.{dump_cause, folder_cause};

use log_folder::FolderFault;
use run_acts::{Cause, LogCause, PathCause};
use waldump_core::DumpFault;

/// The cause of why a log isn't found.
pub(crate) fn folder_cause(fault: FolderFault) -> Cause
    ensures value { result ≡ folder_cause fault }
    ensures look { IsOfLook result }
    ensures only { IsTrue (is_of_files result) ⊎ ((result ≡ Cause.Usage) × (fault ≡ folder_fault.Usage)) }
{
    match fault {
        FolderFault::NotFolder(path) => Cause::Paths(PathCause::NotFolder(path)),
        FolderFault::Link(path) => Cause::Paths(PathCause::Link(path)),
        FolderFault::NameNotText(path) => Cause::Paths(PathCause::NameNotText(path)),
        FolderFault::NoWal(folder) => Cause::Log(LogCause::NoWal(folder)),
        FolderFault::BadSegment(file) => Cause::Log(LogCause::BadSegment(file)),
        FolderFault::Usage => Cause::Usage,
        FolderFault::ReadFault => Cause::ReadFault,
        FolderFault::OutOfMemory => Cause::OutOfMemory,
    }
}

/// The cause of why a dump is refused.
pub(crate) fn dump_cause(fault: DumpFault) -> Cause
    ensures value { result ≡ dump_cause fault }
    ensures ending { ending_of result ≡ ending_by fault }
    ensures only { IsTrue (is_of_files result) }
{
    let log = match fault {
        DumpFault::NoRecordAt(start) => LogCause::NoRecordAt(start),
        DumpFault::LogEnds(place, why) => LogCause::LogEnds(place, why),
        DumpFault::BadParts(start, offset) => LogCause::BadParts(start, offset),
        DumpFault::Compressed(start, id) => LogCause::Compressed(start, id),
        DumpFault::ReadFault => return Cause::ReadFault,
        DumpFault::SinkFault => return Cause::SinkFault,
        DumpFault::OutOfMemory => return Cause::OutOfMemory,
    };
    Cause::Log(log)
}
