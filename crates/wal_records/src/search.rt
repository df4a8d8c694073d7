//! The search for the next record.

ghost use Rattle.std.specs.Prelude.{◌≡◌, IsTrue, IfOk, IsErrOf};
ghost use Rattle.cluster_tree.specs.Causes.{Rose};
ghost use Rattle.wal_base.specs.Segment.{bytes_of};
ghost use Rattle.wal_pages.specs.Cursor.{Knows};
ghost use Rattle.wal_records.specs.Further.{pages_of};
ghost use Rattle.wal_records.specs.Steps.{Seeks, SoughtFits, Turns};

use crate::fault::LogFault;
use crate::place::place_at;
use crate::reading::{Found, read_record};
use crate::why::{Stop, Why};
use cluster_tree::Tree;
use wal_base::Lsn;
use wal_pages::PageCursor;

/// What a search came to.
pub enum Sought {
    /// A record: where it starts, and where it ends.
    Record(u64, u64),
    /// The place at which the log ends, and why.
    End(u64, Why),
}

/// Reads the next record from a place on into `bytes`, over pages that say that the record begun
/// before them was dropped.
pub fn find<F: Tree>(
    pages: &mut PageCursor,
    tree: &mut F,
    before: Option<u64>,
    place: u64,
    bytes: &mut Vec<u8>,
) -> Result<Sought, LogFault>
    ensures found { IsTrue F.tells → Knows pages.old (F.contents tree.old) →
        IfOk result (λ sought. Seeks
        (pages_of pages.old.log (F.contents tree.old)) (bytes_of pages.old.log.size)
        before place sought bytes.new.items) }
    ensures fits { IfOk result (λ sought. SoughtFits before place sought bytes.new.items) }
    ensures turns { Turns F.Tree pages.old tree.old pages.new tree.new }
    ensures read_fault { IsErrOf result LogFault.ReadFault →
        Rose (F.failed_reads tree.old) (F.failed_reads tree.new) }
{
    let size = pages.size();
    let mut place = place;
    'pages: loop {
        bytes.clear();
        match read_record(pages, tree, before, place, bytes)? {
            Found::Record(end) => return Ok(Sought::Record(place, end)),
            Found::Stopped(Stop::Ends(why)) => return Ok(Sought::End(place, why)),
            Found::Stopped(Stop::Dropped(page)) => place = place_at(Lsn(page), size).0,
        }
    }
}
