//! The layout of a commit or an abort.

ghost use Rattle.std.specs.Prelude.{◌≡◌};
ghost use Rattle.record_layouts.specs.End.{before_dropped, dropped_prefix_of, end_of, relations_behind};

use crate::bytes::{Read, signed};
use crate::end_parts::{
    DatabaseName, HAS_DROPPED, HAS_STATS, HAS_SUBXACTS, Origin, Outcome, Prepared, database_part,
    has_flag, list_part, messages_part, origin_part, prepared_part, xinfo_part,
};
use crate::items::Items;
use crate::kinds::{Message, StatsItem};
use block_refs::RelName;

/// What a commit or an abort says, also of a prepared transaction (`xl_xact_parsed_commit`,
/// `xl_xact_parsed_abort`).
#[derive(Drop)]
pub struct TransactionEnd<'a> {
    /// When it came, in microseconds since 2000.
    pub time: i64,
    /// Which parts follow and what else is said, `XACT_XINFO_..` and `XACT_COMPLETION_..`; 0 where the
    /// operation has no such flags.
    pub xinfo: u32,
    /// The database of the transaction.
    pub database: Option<DatabaseName>,
    /// The transaction's subtransactions.
    pub subxacts: Items<'a, u32>,
    /// The relations that are dropped.
    pub dropped: Items<'a, RelName>,
    /// The statistics that are dropped.
    pub stats: Items<'a, StatsItem>,
    /// Messages that caches are no longer valid: of a commit alone.
    pub messages: Items<'a, Message>,
    /// The prepared transaction that ends here.
    pub prepared: Option<Prepared<'a>>,
    /// Where the transaction comes from.
    pub origin: Option<Origin>,
}

impl<'a> TransactionEnd<'a> {
    /// The layout at the front of the main bytes of a record of this outcome, whose operation has
    /// this `has_xinfo`, or `None` where it isn't whole.
    #[tactic(auto, unfolding(crate::specs::End::end_of))]
    pub fn read(outcome: Outcome, has_xinfo: bool, bytes: &'a [u8]) -> Option<TransactionEnd<'a>>
        ensures { result ≡ end_of outcome has_xinfo bytes.now }
    {
        let time = signed(bytes)?;
        let xinfo = xinfo_part(has_xinfo, time.rest.slice())?;
        let flags = xinfo.value;
        let database = database_part(flags, xinfo.rest.slice())?;
        let subxacts = list_part(flags, HAS_SUBXACTS, database.rest.slice())?;
        let dropped = list_part(flags, HAS_DROPPED, subxacts.rest.slice())?;
        let stats = list_part(flags, HAS_STATS, dropped.rest.slice())?;
        let messages = messages_part(outcome, flags, stats.rest.slice())?;
        let prepared = prepared_part(flags, messages.rest.slice())?;
        let origin = origin_part(flags, prepared.rest.slice())?;
        Some(TransactionEnd {
            time: time.value,
            xinfo: flags,
            database: database.value,
            subxacts: subxacts.value,
            dropped: dropped.value,
            stats: stats.value,
            messages: messages.value,
            prepared: prepared.value,
            origin: origin.value,
        })
    }

    /// The relations that the main bytes of such a record say are dropped, as many as are there, also
    /// where the layout isn't whole: none where an earlier part isn't, or their number is negative.
    #[tactic(auto, unfolding(crate::specs::End::dropped_prefix_of))]
    pub fn dropped_prefix(has_xinfo: bool, bytes: &'a [u8]) -> Items<'a, RelName>
        ensures { result ≡ dropped_prefix_of has_xinfo bytes.now }
    {
        match before_dropped(has_xinfo, bytes) {
            None => Items::new(bytes, 0),
            Some(xinfo) => relations_behind(xinfo.value, xinfo.rest.slice()),
        }
    }
}

/// The flags of a commit or abort, and the bytes from its dropped relations on.
#[tactic(auto, unfolding(crate::specs::End::before_dropped))]
fn before_dropped<'a>(has_xinfo: bool, bytes: &'a [u8]) -> Option<Read<'a, u32>>
    ensures { result ≡ before_dropped has_xinfo bytes.now }
{
    let time = signed(bytes)?;
    let xinfo = xinfo_part(has_xinfo, time.rest.slice())?;
    let database = database_part(xinfo.value, xinfo.rest.slice())?;
    let subxacts = list_part::<u32>(xinfo.value, HAS_SUBXACTS, database.rest.slice())?;
    Some(Read {
        value: xinfo.value,
        rest: subxacts.rest,
    })
}

/// The dropped relations that are there, where the flags say that some are dropped.
fn relations_behind<'a>(xinfo: u32, bytes: &'a [u8]) -> Items<'a, RelName>
    ensures { result ≡ relations_behind xinfo bytes.now }
{
    if !has_flag(xinfo, HAS_DROPPED) {
        return Items::new(bytes, 0);
    }
    Items::prefix(bytes)
}
