// Why a run ended.
use block_refs::BlockName;
use cluster_tree::{Path, SinkFailed};
use control_file::Field;
use page_layout::RedoWhy;
use wal_base::{Lsn, OutOfMemory};
use wal_records::Why;

/// Why a run ended.
#[derive(Drop)]
pub enum Cause {
    /// The command was carried out.
    Done,
    /// The words are in no command's grammar.
    Usage,
    /// A read of the tree failed.
    ReadFault,
    /// A change of the tree failed.
    WriteFault,
    /// A write on standard output or standard error failed.
    SinkFault,
    /// Memory is wanting.
    OutOfMemory,
    /// The tree contradicted, about this path, what it had answered earlier in the run.
    Changed(Path),
    /// The mark of a run that wasn't finished stands at this path.
    Unfinished(Path),
    /// A path is refused.
    Paths(PathCause),
    /// A control file is refused.
    Control(ControlCause),
    /// A history of a timeline is refused.
    History(HistoryCause),
    /// Clusters or files are unfit for what is to be done with them.
    Rewind(RewindCause),
    /// A log or a segment of one is refused.
    Log(LogCause),
    /// A cluster, its label or a record of its log is unfit for a replay, or the replay broke off.
    Replay(ReplayCause),
    /// Two clusters that were compared differ: the least path at which they do, from the roots on, and
    /// where it has a main fork's file of one size in both, the number of the first block in its fork
    /// that differs.
    Differs(Path, Option<u32>),
}

/// What is wrong with a path.
#[derive(Drop)]
pub enum PathCause {
    /// A root or the folder of a log has a part `..`.
    DotDot,
    /// A root has more than 61 parts, or the folder of a log more than 62; of one with more than 64
    /// parts the first 64. Or a path that a rewind or a comparison finds below a root, or a replay that
    /// can be started again where it lists what stands, has more than 64 with those of its root, or of a
    /// rewind's target; of it the first 64 behind the root's. Or something lies in a folder of 64 parts,
    /// at or below one that a record removes; that folder.
    TooDeep(Path),
    /// One of two roots is the other or lies in it.
    PathsOverlap,
    /// What has to be a folder isn't there, or is a file.
    NotFolder(Path),
    /// What has to be a folder, or a file that is to be removed or that a record needs, is a link or a
    /// special file; or one stands below a root of a rewind or a comparison, or where a replay that can be
    /// started again lists what stands, at this path below it.
    Link(Path),
    /// A folder holds a name that isn't text. In a rewind or a comparison, and where a replay that can be
    /// started again lists what stands, it is the folder's path below its root.
    NameNotText(Path),
    /// Something stands where a pair is to be made: the first such path.
    Occupied(Path),
}

/// What is wrong with a control file. Its root comes first.
#[derive(Drop)]
pub enum ControlCause {
    /// `global/pg_control` is not a file.
    ControlMissing(Path),
    /// The number of bytes, which is not 8192.
    Size(Path, u64),
    /// The checksum that is stored, and the one that the bytes have.
    Crc(Path, u32, u32),
    /// The version, which is not 1300.
    Version(Path, u32),
    /// The catalog version, which is not 202307071.
    Catalog(Path, u32),
    /// A field and its value, which is out of shape, or is not the target's.
    Shape(Path, Field, u64),
}

/// What is wrong with the histories of timelines. The root of a cluster and a timeline come first.
#[derive(Drop)]
pub enum HistoryCause {
    /// The timeline's history is not a file.
    HistoryMissing(Path, u32),
    /// The number of the first line that is no entry.
    BadLine(Path, u32, u64),
    /// The number of the first line that doesn't rise above the one before it.
    NotRising(Path, u32, u64),
    /// Two histories have nothing in common.
    NoCommonAncestor,
}

/// Why clusters or files are unfit for what is to be done with them.
#[derive(Drop)]
pub enum RewindCause {
    /// The target's system identifier, and the source's.
    SystemsDiffer(u64, u64),
    /// The root of a cluster whose log has no hints of its pages.
    NoHints(Path),
    /// The root of a cluster that wasn't shut down, and its state.
    NotClean(Path, u32),
    /// The end of the target's log, and the end of a record that starts below it and ends past it.
    EndNotRecord(Lsn, Lsn),
    /// The start of a record without one before it, up to which no checkpoint lies before the fork.
    NoCommonCheckpoint(Lsn),
    /// A record that changes relations in a way that isn't known: its start, its resource manager
    /// and its info byte.
    UnknownSpecial(Lsn, u8, u8),
    /// A folder stands in the place of a file. In a rewind a file stands at this path below one root
    /// and a folder below the other.
    KindsDiffer(Path),
    /// A file of a main fork at this path below a root, and its bytes, which make no whole blocks.
    OddSize(Path, u64),
    /// The root of a target whose mark holds a plan, or of a cluster whose mark holds the list of a
    /// replay, and the number, from 1, of the first line of it that isn't of its form or place.
    BadPlan(Path, u64),
    /// A file at this path below the source's root isn't the one that a stored plan was made for.
    SourceDiffers(Path),
    /// What stands at this path below the target's root refuses the next change of a rewind that is
    /// resumed. What was changed before stays, and the mark stands.
    TargetDiffers(Path),
}

/// What is wrong with a log.
#[derive(Drop)]
pub enum LogCause {
    /// The place at which the log ends before the stop, and why.
    LogEnds(Lsn, Why),
    /// A record without parts: its start, and the offset in its body of the first fragment at which
    /// no rule fits.
    BadParts(Lsn, u32),
    /// A compressed image: the start of its record, and the id of its block reference.
    Compressed(Lsn, u8),
    /// The start, from which no record lies before the stop.
    NoRecordAt(Lsn),
    /// The folder, where the log isn't found.
    NoWal(Path),
    /// The file, whose first 40 bytes aren't the header of a segment; or pg_wal, where no new segment
    /// can be.
    BadSegment(Path),
}

/// Why a log isn't replayed, or not to its end.
#[derive(Drop)]
pub enum ReplayCause {
    /// The root of a cluster whose pages have checksums.
    ChecksumsOn(Path),
    /// The root, below which `backup_label` is not a file.
    NoLabel(Path),
    /// The root, and the number of the line of its label that isn't of its form, or of which the log
    /// has no checkpoint.
    BadLabel(Path, u64),
    /// A record that replay doesn't take: its start, its resource manager and its info byte.
    NotInProfile(Lsn, u8, u8),
    /// The end of the log, and the position that the cluster needs to be consistent.
    EndsTooSoon(Lsn, Lsn),
    /// The start of a record, a block, and why the record isn't redone on it.
    RedoFailed(Lsn, BlockName, RedoWhy),
    /// A block that a record changes, and that wasn't there to the end of the log.
    MissingPage(BlockName),
    /// The copy of a file, below the folder `pg_walreplay.shadow` at the root of a cluster whose replay
    /// is started again, isn't a file of the size that the mark lists.
    ShadowDiffers(Path),
    /// The least block of a main fork of which the log changes first the page that stands there: a
    /// replay of it can't be started again.
    NotRestartable(BlockName),
}

impl From<SinkFailed> for Cause {
    ghost use Rattle.std.specs.Prelude.{◌≡◌};
    ghost use Rattle.run_acts.specs.declared.cause.Cause.TheVariants.{SinkFault};

    ghost from_gives = { λ _ e. e ≡ SinkFault };

    fn from(_: SinkFailed) -> Cause {
        Cause::SinkFault
    }
}

impl From<OutOfMemory> for Cause {
    ghost use Rattle.std.specs.Prelude.{◌≡◌};
    ghost use Rattle.run_acts.specs.declared.cause.Cause.TheVariants as cause;

    ghost from_gives = { λ _ e. e ≡ cause.OutOfMemory };

    fn from(_: OutOfMemory) -> Cause {
        Cause::OutOfMemory
    }
}
