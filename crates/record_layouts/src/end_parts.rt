//! The parts of a commit or an abort.

ghost use Rattle.std.specs.Prelude.{◌≡◌, None};
ghost use Rattle.block_refs.specs.Bits.{has_bits};
ghost use Rattle.record_layouts.specs.EndParts.{database, gid_part, list_part, messages_part, origin, part, prepared, xinfo_part};

use crate::bytes::{Bytes, Read, long, signed, text, word};
use crate::items::{Item, Items};
use crate::kinds::Message;
use wal_base::Lsn;

/// The database is named (`XACT_XINFO_HAS_DBINFO`).
const HAS_DATABASE: u32 = 0x01;

/// There are subtransactions (`XACT_XINFO_HAS_SUBXACTS`).
pub const HAS_SUBXACTS: u32 = 0x02;

/// Relations are dropped (`XACT_XINFO_HAS_RELFILELOCATORS`).
pub const HAS_DROPPED: u32 = 0x04;

/// There are messages (`XACT_XINFO_HAS_INVALS`).
const HAS_MESSAGES: u32 = 0x08;

/// A prepared transaction ends (`XACT_XINFO_HAS_TWOPHASE`).
const HAS_PREPARED: u32 = 0x10;

/// There is an origin (`XACT_XINFO_HAS_ORIGIN`).
const HAS_ORIGIN: u32 = 0x20;

/// The prepared transaction is named (`XACT_XINFO_HAS_GID`).
const HAS_GID: u32 = 0x80;

/// Statistics are dropped (`XACT_XINFO_HAS_DROPPED_STATS`).
pub const HAS_STATS: u32 = 0x100;

/// How a transaction ends.
#[derive(Clone, Copy, Debug, PartialEq, Eq)]
pub enum Outcome {
    /// It commits.
    Commit,
    /// It is aborted.
    Abort,
}

/// A database (`xl_xact_dbinfo`).
#[derive(Clone, Copy, Debug, PartialEq, Eq)]
pub struct DatabaseName {
    /// The database.
    pub database: u32,
    /// Its tablespace.
    pub space: u32,
}

/// A prepared transaction (`xl_xact_twophase`).
#[derive(Drop)]
pub struct Prepared<'a> {
    /// Its transaction id.
    pub xid: u32,
    /// The name that it was prepared under, without the zero behind it.
    pub gid: Option<Bytes<'a>>,
}

/// Where a transaction comes from (`xl_xact_origin`).
#[derive(Clone, Copy, Debug, PartialEq, Eq)]
pub struct Origin {
    /// Its position in the log of the server that it comes from.
    pub lsn: Lsn,
    /// When it committed there, in microseconds since 2000.
    pub time: i64,
}

/// Whether these flags have a bit.
pub fn has_flag(xinfo: u32, flag: u32) -> bool
    ensures { result ≡ has_bits xinfo flag }
{
    xinfo & flag != 0
}

/// The flags, which are 0 where there are none.
pub fn xinfo_part<'a>(has_xinfo: bool, bytes: &'a [u8]) -> Option<Read<'a, u32>>
    ensures { result ≡ xinfo_part has_xinfo bytes.now }
{
    if !has_xinfo {
        let rest = Bytes::new(bytes);
        return Some(Read { value: 0, rest });
    }
    word(bytes)
}

/// A database.
#[tactic(auto, unfolding(crate::specs::EndParts::database))]
fn read_database<'a>(bytes: &'a [u8]) -> Option<Read<'a, Option<DatabaseName>>>
    ensures { result ≡ database bytes.now }
{
    let database = word(bytes)?;
    let space = word(database.rest.slice())?;
    let name = DatabaseName {
        database: database.value,
        space: space.value,
    };
    Some(Read {
        value: Some(name),
        rest: space.rest,
    })
}

/// The database, where there is one.
pub fn database_part<'a>(xinfo: u32, bytes: &'a [u8]) -> Option<Read<'a, Option<DatabaseName>>>
    ensures { result ≡ part xinfo 0x01 None (database bytes.now) bytes.now }
{
    if !has_flag(xinfo, HAS_DATABASE) {
        let rest = Bytes::new(bytes);
        return Some(Read { value: None, rest });
    }
    read_database(bytes)
}

/// A list that is there where the flags have this bit.
pub fn list_part<'a, T: Item>(
    xinfo: u32,
    flag: u32,
    bytes: &'a [u8],
) -> Option<Read<'a, Items<'a, T>>>
    ensures { result ≡ list_part xinfo flag T.width T.item bytes.now }
{
    if has_flag(xinfo, flag) {
        return Items::read(bytes);
    }
    let value = Items::new(bytes, 0);
    let rest = Bytes::new(bytes);
    Some(Read { value, rest })
}

/// The messages, of which an abort has none.
pub fn messages_part<'a>(
    outcome: Outcome,
    xinfo: u32,
    bytes: &'a [u8],
) -> Option<Read<'a, Items<'a, Message>>>
    ensures { result ≡ messages_part outcome xinfo bytes.now }
{
    match outcome {
        Outcome::Commit => list_part(xinfo, HAS_MESSAGES, bytes),
        Outcome::Abort => list_part(0, HAS_MESSAGES, bytes),
    }
}

/// The name of a prepared transaction, where there is one.
#[tactic(auto, unfolding(crate::specs::EndParts::gid_part))]
fn gid_part<'a>(xinfo: u32, bytes: &'a [u8]) -> Option<Read<'a, Option<Bytes<'a>>>>
    ensures { result ≡ gid_part xinfo bytes.now }
{
    if !has_flag(xinfo, HAS_GID) {
        let rest = Bytes::new(bytes);
        return Some(Read { value: None, rest });
    }
    let gid = text(bytes)?;
    Some(Read {
        value: Some(gid.value),
        rest: gid.rest,
    })
}

/// A prepared transaction.
#[tactic(auto, unfolding(crate::specs::EndParts::prepared))]
fn read_prepared<'a>(xinfo: u32, bytes: &'a [u8]) -> Option<Read<'a, Option<Prepared<'a>>>>
    ensures { result ≡ prepared xinfo bytes.now }
{
    let xid = word(bytes)?;
    let gid = gid_part(xinfo, xid.rest.slice())?;
    let value = Some(Prepared {
        xid: xid.value,
        gid: gid.value,
    });
    Some(Read {
        value,
        rest: gid.rest,
    })
}

/// The prepared transaction, where one ends.
pub fn prepared_part<'a>(xinfo: u32, bytes: &'a [u8]) -> Option<Read<'a, Option<Prepared<'a>>>>
    ensures { result ≡ part xinfo 0x10 None (prepared xinfo bytes.now) bytes.now }
{
    if !has_flag(xinfo, HAS_PREPARED) {
        let rest = Bytes::new(bytes);
        return Some(Read { value: None, rest });
    }
    read_prepared(xinfo, bytes)
}

/// An origin.
#[tactic(auto, unfolding(crate::specs::EndParts::origin))]
fn read_origin<'a>(bytes: &'a [u8]) -> Option<Read<'a, Option<Origin>>>
    ensures { result ≡ origin bytes.now }
{
    let lsn = long(bytes)?;
    let time = signed(lsn.rest.slice())?;
    let value = Some(Origin {
        lsn: Lsn(lsn.value),
        time: time.value,
    });
    Some(Read {
        value,
        rest: time.rest,
    })
}

/// The origin, where there is one.
pub fn origin_part<'a>(xinfo: u32, bytes: &'a [u8]) -> Option<Read<'a, Option<Origin>>>
    ensures { result ≡ part xinfo 0x20 None (origin bytes.now) bytes.now }
{
    if !has_flag(xinfo, HAS_ORIGIN) {
        let rest = Bytes::new(bytes);
        return Some(Read { value: None, rest });
    }
    read_origin(bytes)
}
