//! Where a log lies.

ghost use Rattle.std.specs.Prelude.{◌≡◌, ◌*◌, ◌<◌, ◌≤◌, ◌^◌, [], ◌∷◌, length, IfOk};
ghost use Rattle.cluster_tree.specs.PathValue.{below};
ghost use Rattle.wal_base.specs.Segment.{bytes_of, name_of};
ghost use Rattle.wal_pages.specs.LogBytes.{segment_at};

use cluster_tree::Path;
use std::alloc::Global;
use wal_base::{Lsn, OutOfMemory, SegSize, Segment, Spans};

/// Where a log lies, and what its pages have to say.
#[derive(Debug, Drop)]
pub struct LogPath {
    /// The folder of the segment files, of at most 63 parts where a `PageCursor` reads it.
    pub folder: Path,
    /// The timelines of the log.
    pub spans: Spans,
    /// The size of its segments.
    pub size: SegSize,
    /// The system that wrote it, if that is to be compared.
    pub system: Option<u64>,
}

impl LogPath {
    /// The segment that holds a position, on the timeline that it is read from.
    pub(crate) fn segment_at(&self, at: Lsn) -> Segment
        ensures value { result ≡ segment_at self.now at.0 }
        ensures fits { result.number * bytes_of result.size < 2 ^ 64 }
    {
        let number = at.0 / u64::from(self.size.bytes());
        Segment::of(self.spans.segment_tli(number, self.size), at, self.size)
    }

    /// The path of a segment's file.
    #[tactic(auto, using(crate::proofs::PartLemmas::part_steps))]
    pub(crate) fn file_of(&self, alloc: Global, segment: Segment) -> Result<Path, OutOfMemory>
        requires room { length self.now.folder.parts ≤ 63 }
        requires fits { segment.number * bytes_of segment.size < 2 ^ 64 }
        ensures { IfOk result (λ path. path ≡ below self.now.folder (name_of segment ∷ [])) }
    {
        let name = segment.name(alloc)?;
        match self.folder.below(alloc, name.as_str()) {
            Ok(path) => Ok(path),
            Err(_) => Err(OutOfMemory),
        }
    }
}
