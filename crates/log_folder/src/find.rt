// The log of a dump.
ghost use Rattle.std.specs.Prelude.{◌≡◌, ◌≤◌, length, IfOk, IfErr, IsTrue, IsErrOf};
ghost use Rattle.cluster_tree.specs.Causes.{Meets, Rose};
ghost use Rattle.cluster_tree.specs.Frame.{Reads};
ghost use Rattle.commands.specs.Fit.{IsFitFolder};
ghost use Rattle.log_folder.specs.Faults.{IsFree, IsOfTree};
ghost use Rattle.log_folder.specs.Found.{IsMisused, found_in, log_in, name_read, selection_of};
ghost use Rattle.log_folder.specs.Segment.{size_of};

use crate::FolderFault;
use crate::bounds::{Bounds, bounds_of};
use crate::segment::size_of;
use crate::taken::{Taken, taken_of};
use cluster_tree::{Path, Tree};
use commands::{DumpWords, Filters};
use std::alloc::Global;
use wal_base::{SegSize, Spans, Text};
use wal_pages::LogPath;
use waldump_core::Selection;

/// A log, and what of it is dumped.
#[derive(Drop)]
pub struct FoundLog {
    /// Where it lies: one timeline in a folder of at most 63 parts, whose system is not compared.
    pub log: LogPath,
    /// What of it is dumped.
    pub sel: Selection,
}

// The name of the segment that tells the size.
fn name_read<'a>(taken: &'a Taken, first: &'a Option<Text>) -> &'a str
    ensures { result.now ≡ name_read taken.now.least first.now }
{
    match first {
        Some(name) => name.as_str(),
        None => taken.least.as_str(),
    }
}

// The size of segments that STARTSEG tells, else the least segment of the folder that is taken.
fn size_for<F: Tree>(
    alloc: Global,
    tree: &mut F,
    taken: &Taken,
    words: &DumpWords,
) -> Result<SegSize, FolderFault>
    requires room { length taken.now.folder.parts ≤ 63 }
    ensures exact { IsTrue F.tells → Meets IsFree (size_of (F.contents tree.old) taken.now.folder
        (name_read taken.now.least words.now.first)) result }
    ensures cause { IfErr result IsOfTree }
    ensures reads { Reads F.Tree tree.old tree.new }
    ensures read_fault { IsErrOf result FolderFault.ReadFault →
        Rose (F.failed_reads tree.old) (F.failed_reads tree.new) }
{
    let name = name_read(taken, &words.first);
    size_of(alloc, tree, &taken.folder, name)
}

// One timeline of the log in a folder.
fn log_in(alloc: Global, folder: Path, size: SegSize, tli: u32) -> Result<LogPath, FolderFault>
    ensures value { IfOk result (λ log. log ≡ log_in folder size tli) }
    ensures memory { IfErr result (λ e. e ≡ FolderFault.OutOfMemory) }
{
    Ok(LogPath {
        folder,
        spans: Spans::one(alloc, tli)?,
        size,
        system: None,
    })
}

// What is shown between bounds.
fn selection_of(bounds: &Bounds, filters: &Filters) -> Selection
    ensures { result ≡ selection_of bounds.now filters.now }
{
    Selection {
        start: bounds.start,
        stop: bounds.stop,
        limit: filters.limit,
        details: filters.details,
        quiet: filters.quiet,
        images_only: filters.images_only,
        manager: filters.manager,
        rel: filters.rel,
        block: filters.block,
        fork: filters.fork,
        xid: filters.xid,
    }
}

/// Finds the log that the words of a dump ask for. It changes nothing.
///
/// Where the folder has no file with a segment's name (24 digits 0 to 9 and A to F), its folder
/// pg_wal is taken. The size of segments stands in the first 40 bytes of STARTSEG, else of the least
/// file with a segment's name. One timeline is read: that of STARTSEG, else that of `-t`, else 1. The
/// dump begins at `-s`, else at the start of STARTSEG, and stops at `-e`, else at the end of ENDSEG,
/// else at that of STARTSEG, else nowhere; an end of 2^64 is no stop.
///
/// Answers, in this order, `NotFolder` where neither a folder nor a link stands at the folder's path;
/// `Link` where a link does; `NameNotText` where it holds a name that isn't UTF-8, and so for pg_wal,
/// where that is looked at; `NoWal` where neither folder has a file with a segment's name, or the one
/// that is taken hasn't the file STARTSEG; `BadSegment` where the 40 bytes aren't there, don't begin
/// with the magic of a page, or the size is none; and `Usage` where STARTSEG or ENDSEG is no segment
/// of this size, `-s` lies out of STARTSEG, or ENDSEG lies below STARTSEG or on another timeline.
/// `ReadFault` comes only where a read failed, which the tree has counted, and `OutOfMemory` only for
/// want of memory.
#[tactic(auto, using(crate::proofs::FoundLemmas::found_steps), unfolding(crate::specs::Found::found_in))]
pub fn find_log<F: Tree>(
    alloc: Global,
    tree: &mut F,
    words: &DumpWords,
) -> Result<FoundLog, FolderFault>
    requires fit { IsFitFolder words.now.folder }
    // the answer is that of the first point that refuses, or a fault of the device, or want of memory
    ensures exact { IsTrue F.tells →
        Meets IsFree (found_in (F.contents tree.old) words.now) result }
    ensures room { IfOk result (λ found. length found.log.folder.parts ≤ 63) }
    ensures usage { IsErrOf result FolderFault.Usage → IsMisused words.now }

    ensures reads { Reads F.Tree tree.old tree.new }
    ensures read_fault { IsErrOf result FolderFault.ReadFault →
        Rose (F.failed_reads tree.old) (F.failed_reads tree.new) }
{
    let taken = taken_of(alloc, tree, &words.folder)?;
    let size = size_for(alloc, tree, &taken, words)?;
    let bounds = bounds_of(size, words)?;
    Ok(FoundLog {
        log: log_in(alloc, taken.folder, size, bounds.tli)?,
        sel: selection_of(&bounds, &words.filters),
    })
}
