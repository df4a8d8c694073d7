// The logs of a pair.
ghost use Rattle.std.specs.Prelude.{◌≡◌, ℕ, ◌+◌, ◌*◌, ◌<◌, ◌≤◌, ◌^◌, [], ◌∷◌, ◌++◌, List, IfOk, OnOk, length, map};
ghost use Rattle.std.specs.List.{range_with_len};
ghost use Rattle.control_file.specs.Writing.{checkpoint_bytes};
ghost use Rattle.reset_plan.specs.NewSegment.{checkpoint_record};
ghost use Rattle.wal_records.specs.Place.{place_at};
ghost use Rattle.wal_records.specs.Writer.{NewRecord, new_record, written};
ghost use Rattle.wal_records.specs.declared.log_origin.LogOrigin.{LogOrigin};
ghost use Rattle.pair_maker.specs.Inserts.{insert_record};
ghost use Rattle.pair_maker.specs.Logs.{block_end, common_checkpoint, last_checkpoint, last_place, log_upto, megabyte, origin_of, records_of};

use crate::blocks::{LOG_START, TRANSACTION};
use crate::inserts::insert_body;
use crate::side::{Side, inserts_into, timeline_of};
use cluster_tree::OutOfMemory;
use control_file::{Checkpoint, write_checkpoint};
use std::alloc::Global;
use wal_base::{Lsn, SegSize};
use wal_records::{LogWriteFault, LogWriter, place_at};

/// The number that both clusters have.
pub(crate) const SYSTEM: u64 = 7_300_000_000_000_000_001;

/// When the clusters were made and are rewound, in seconds since 1970.
pub(crate) const MADE_AT: i64 = 1_700_000_000;

/// Where the record of the common checkpoint stands.
pub(crate) const COMMON_PLACE: u64 = 0x10_0028;

/// The log of a cluster, and what its files say of it.
#[derive(Drop)]
pub(crate) struct WholeLog {
    /// The log itself.
    pub writer: LogWriter,
    /// Of each block, where the insert into it ends, if there is one.
    pub ends: Vec<Option<u64>>,
    /// Where its last record stands.
    pub last: u64,
}

/// The size of segments.
pub(crate) fn megabyte() -> SegSize
    ensures { result ≡ megabyte }
{
    match SegSize::new(0x10_0000) {
        Some(size) => size,
        None => unreachable!(),
    }
}

// The checkpoint that both clusters have.
fn common_checkpoint() -> Checkpoint
    ensures { result ≡ common_checkpoint }
{
    Checkpoint {
        redo: COMMON_PLACE,
        tli: 1,
        prevTli: 1,
        fpw: 1,
        nextXid: 700,
        nextOid: 16385,
        nextMulti: 1,
        nextMultiOffset: 0,
        oldestXid: 700,
        oldestXidDb: 1,
        oldestMulti: 1,
        oldestMultiDb: 1,
        time: MADE_AT,
        oldestCommitTs: 0,
        newestCommitTs: 0,
        oldestActiveXid: 0,
    }
}

/// The checkpoint at which a cluster was shut down, whose record stands there.
pub(crate) fn last_checkpoint(side: Side, place: u64) -> Checkpoint
    ensures { result ≡ last_checkpoint side place }
{
    Checkpoint {
        redo: place,
        tli: timeline_of(side),
        nextXid: 701,
        ..common_checkpoint()
    }
}

// The header of 88 main bytes, and the checkpoint.
fn checkpoint_body(cp: &Checkpoint) -> [u8; 90]
    ensures value { result ≡ 255 ∷ 88 ∷ checkpoint_bytes cp.now }
    ensures size { length result ≡ 90 }
{
    let mut body = [0; 90];
    body[0] = 255;
    body[1] = 88;
    write_checkpoint(cp, &mut body[2..]);
    body
}

// Appends a record to a log that is far from its limit.
fn append(
    writer: &mut LogWriter,
    xid: u32,
    info: u8,
    manager: u8,
    body: &[u8],
) -> Result<(), OutOfMemory>
    requires manager { manager < 22 }
    requires short { length body.now ≤ 100 }
    requires low { writer.old.end ≤ 2 ^ 62 }
    ensures more { OnOk result ((origin : LogOrigin) (records : List NewRecord) →
        writer.old ≡ written origin records →
        writer.new ≡ written origin (records ++ new_record xid info manager body.now ∷ [])) }
    ensures near { OnOk result (writer.new.end ≤ writer.old.end + 2 ^ 32) }
{
    let _end = writer.position();
    match writer.append(xid, info, manager, body) {
        Ok(_) => Ok(()),
        Err(LogWriteFault::TooLong(total)) => unreachable!(),
        Err(LogWriteFault::OutOfMemory) => Err(OutOfMemory),
    }
}

// Appends the record of a shutdown checkpoint.
fn append_checkpoint(writer: &mut LogWriter, cp: &Checkpoint) -> Result<(), OutOfMemory>
    requires low { writer.old.end ≤ 2 ^ 62 }
    ensures more { OnOk result ((origin : LogOrigin) (records : List NewRecord) →
        writer.old ≡ written origin records →
        writer.new ≡ written origin (records ++ checkpoint_record cp.now ∷ [])) }
    ensures near { OnOk result (writer.new.end ≤ writer.old.end + 2 ^ 32) }
{
    let body = checkpoint_body(cp);
    append(writer, 0, 0, 0, &body)
}

// A log of no records.
fn begin(alloc: Global, side: Side) -> Result<LogWriter, OutOfMemory>
    ensures empty { IfOk result (λ writer. writer ≡ written (origin_of side) []) }
    ensures low { IfOk result (λ writer. writer.end ≡ 0x10_0000) }
{
    match LogWriter::new(alloc, Lsn(LOG_START), timeline_of(side), SYSTEM, megabyte()) {
        Ok(writer) => Ok(writer),
        Err(_) => Err(OutOfMemory),
    }
}

/// The log that has the common checkpoint alone.
pub(crate) fn begun_log(alloc: Global, side: Side) -> Result<LogWriter, OutOfMemory>
    ensures log { IfOk result (λ writer. writer
        ≡ written (origin_of side) (checkpoint_record common_checkpoint ∷ [])) }
    ensures low { IfOk result (λ writer. writer.end ≤ 2 ^ 33) }
{
    let mut writer = begin(alloc, side)?;
    append_checkpoint(&mut writer, &common_checkpoint())?;
    Ok(writer)
}

// Appends the insert into a block.
fn append_insert(
    alloc: Global,
    writer: &mut LogWriter,
    seed: u64,
    block: u32,
) -> Result<(), OutOfMemory>
    requires low { writer.old.end ≤ 2 ^ 62 }
    ensures more { OnOk result ((origin : LogOrigin) (records : List NewRecord) →
        writer.old ≡ written origin records →
        writer.new ≡ written origin (records ++ insert_record seed block ∷ [])) }
    ensures near { OnOk result (writer.new.end ≤ writer.old.end + 2 ^ 32) }
{
    let body = insert_body(alloc, seed, block)?;
    append(writer, TRANSACTION, 0, 10, &body)
}

// Goes on with a block: with the insert into it, if there is one. Answers where that ends.
fn add_block(
    alloc: Global,
    writer: &mut LogWriter,
    side: Side,
    seed: u64,
    block: u32,
) -> Result<Option<u64>, OutOfMemory>
    requires at { writer.old ≡ log_upto side seed block }
    requires low { writer.old.end ≤ 2 ^ 62 }
    ensures log { OnOk result (writer.new ≡ log_upto side seed (block + 1)) }
    ensures end { IfOk result (λ end. end ≡ block_end side seed block) }
    ensures near { OnOk result (writer.new.end ≤ writer.old.end + 2 ^ 32) }
{
    if !inserts_into(side, seed, block) {
        return Ok(None);
    }
    append_insert(alloc, writer, seed, block)?;
    Ok(Some(writer.position().0))
}

// Goes on with all blocks. Answers where the inserts into them end.
fn add_blocks(
    alloc: Global,
    writer: &mut LogWriter,
    side: Side,
    seed: u64,
    blocks: u32,
) -> Result<Vec<Option<u64>>, OutOfMemory>
    requires at { writer.old ≡ log_upto side seed 0 }
    requires low { writer.old.end ≤ 2 ^ 33 }
    requires few { blocks ≤ 4096 }
    ensures log { OnOk result (writer.new ≡ log_upto side seed blocks) }
    ensures ends { IfOk result (λ ends.
        ends.items ≡ map (block_end side seed) (range_with_len 0 blocks)) }
    ensures low { OnOk result (writer.new.end ≤ 2 ^ 50) }
{
    let mut ends = Vec::new(alloc);
    for block in 0..blocks {
        let end = add_block(alloc, writer, side, seed, block)?;
        ends.push(end)?;
    }
    Ok(ends)
}

// Ends a log with the checkpoint at which its cluster was shut down. Answers where its record stands.
fn end_log(writer: &mut LogWriter, side: Side) -> Result<u64, OutOfMemory>
    requires low { writer.old.end ≤ 2 ^ 62 }
    ensures last { IfOk result (λ last. last ≡ place_at 0x10_0000 writer.old.end) }
    ensures more { IfOk result (λ last. (origin : LogOrigin) (records : List NewRecord) →
        writer.old ≡ written origin records → writer.new
        ≡ written origin (records ++ checkpoint_record (last_checkpoint side last) ∷ [])) }
{
    let last = place_at(writer.position(), megabyte()).0;
    append_checkpoint(writer, &last_checkpoint(side, last))?;
    Ok(last)
}

/// The whole log of a cluster.
#[tactic(auto, unfolding(crate::specs::Logs::log_upto, crate::specs::Logs::last_place))]
pub(crate) fn whole_log(
    alloc: Global,
    side: Side,
    seed: u64,
    blocks: u32,
) -> Result<WholeLog, OutOfMemory>
    requires few { blocks ≤ 4096 }
    ensures log { IfOk result (λ log. log.writer
        ≡ written (origin_of side) (records_of side seed blocks)) }
    ensures ends { IfOk result (λ log.
        log.ends.items ≡ map (block_end side seed) (range_with_len 0 blocks)) }
    ensures last { IfOk result (λ log. log.last ≡ last_place side seed blocks) }
{
    let mut writer = begun_log(alloc, side)?;
    let ends = add_blocks(alloc, &mut writer, side, seed, blocks)?;
    let last = end_log(&mut writer, side)?;
    Ok(WholeLog { writer, ends, last })
}
