// The control file that a reset writes.
ghost use Rattle.std.specs.Prelude.{◌≡◌};
ghost use Rattle.std.specs.Option.{option_map_or};
ghost use Rattle.control_file.specs.Admission.{IsControl};
ghost use Rattle.wal_base.specs.Segment.{bytes_of};
ghost use Rattle.reset_numbers.specs.NewControl.{new_checkpoint, new_control, new_end, new_prev_tli, new_tli, new_xid};

use crate::ResetOptions;
use control_file::{Checkpoint, Control};
use wal_base::SegSize;

/// The timeline of the new log.
pub(crate) fn new_tli(given: Option<(u32, u64, u64)>, tli: u32) -> u32
    ensures { result ≡ new_tli given tli }
{
    match given {
        Some(log) => tli.max(log.0),
        None => tli,
    }
}

// The timeline before it.
fn new_prev_tli(given: Option<(u32, u64, u64)>, tli: u32, prev: u32) -> u32
    ensures { result ≡ new_prev_tli given tli prev }
{
    match given {
        Some(log) => if tli < log.0 { log.0 } else { prev },
        None => prev,
    }
}

// The next transaction.
fn new_xid(epoch: Option<u32>, xid: Option<u32>, next: u64) -> u64
    ensures { result ≡ new_xid epoch xid next }
{
    let high = epoch.unwrap_or((next / 0x1_0000_0000) as u32);
    let low = xid.unwrap_or((next % 0x1_0000_0000) as u32);
    u64::from(high) * 0x1_0000_0000 + u64::from(low)
}

// An end of the commit timestamps.
fn new_end(given: u32, old: u32) -> u32
    ensures { result ≡ new_end given old }
{
    if given == 0 { old } else { given }
}

// The oldest transaction with a commit time, and the newest.
fn oldest_end(given: Option<(u32, u32)>, old: u32) -> u32
    ensures { result ≡ option_map_or (λ ends. new_end ends.0 old) given old }
{
    match given {
        Some(ends) => new_end(ends.0, old),
        None => old,
    }
}

fn newest_end(given: Option<(u32, u32)>, old: u32) -> u32
    ensures { result ≡ option_map_or (λ ends. new_end ends.1 old) given old }
{
    match given {
        Some(ends) => new_end(ends.1, old),
        None => old,
    }
}

// The next multixact, and the oldest.
fn next_multi(given: Option<(u32, u32)>, old: u32) -> u32
    ensures { result ≡ option_map_or (λ ids. ids.0) given old }
{
    match given {
        Some(ids) => ids.0,
        None => old,
    }
}

fn oldest_multi(given: Option<(u32, u32)>, old: u32) -> u32
    ensures { result ≡ option_map_or (λ ids. ids.1) given old }
{
    match given {
        Some(ids) => ids.1,
        None => old,
    }
}

// The database of the oldest transaction, and that of the oldest multixact: unknown where these are given.
fn xid_database(given: Option<u32>, old: u32) -> u32
    ensures { result ≡ option_map_or (λ xid. 0) given old }
{
    match given {
        Some(_) => 0,
        None => old,
    }
}

fn multi_database(given: Option<(u32, u32)>, old: u32) -> u32
    ensures { result ≡ option_map_or (λ ids. 0) given old }
{
    match given {
        Some(_) => 0,
        None => old,
    }
}

// The checkpoint that ends the new log, whose record is at this position.
#[tactic(auto, unfolding(crate::specs::NewControl::new_checkpoint))]
fn new_checkpoint(options: &ResetOptions, now: i64, at: u64, cp: &Checkpoint) -> Checkpoint
    ensures { result ≡ new_checkpoint options.now now at cp.now }
{
    Checkpoint {
        redo: at,
        tli: new_tli(options.log, cp.tli),
        prevTli: new_prev_tli(options.log, cp.tli, cp.prevTli),
        fpw: cp.fpw,
        nextXid: new_xid(options.epoch, options.xid, cp.nextXid),
        nextOid: options.oid.unwrap_or(cp.nextOid),
        nextMulti: next_multi(options.multi, cp.nextMulti),
        nextMultiOffset: options.multi_offset.unwrap_or(cp.nextMultiOffset),
        oldestXid: options.oldest_xid.unwrap_or(cp.oldestXid),
        oldestXidDb: xid_database(options.oldest_xid, cp.oldestXidDb),
        oldestMulti: oldest_multi(options.multi, cp.oldestMulti),
        oldestMultiDb: multi_database(options.multi, cp.oldestMultiDb),
        time: now,
        oldestCommitTs: oldest_end(options.commit_ts, cp.oldestCommitTs),
        newestCommitTs: newest_end(options.commit_ts, cp.newestCommitTs),
        oldestActiveXid: cp.oldestActiveXid,
    }
}

// The control file, field by field.
#[tactic(auto, unfolding(crate::specs::NewControl::new_control))]
fn fields(options: &ResetOptions, now: i64, at: u64, size: u32, old: &Control) -> Control
    ensures { result ≡ new_control options.now now at size old.now }
{
    Control {
        state: 1,
        time: now,
        checkPoint: at,
        cp: new_checkpoint(options, now, at, &old.cp),
        minRecoveryPoint: 0,
        minRecoveryPointTli: 0,
        backupStart: 0,
        backupEnd: 0,
        endRequired: 0,
        walLevel: 0,
        walLogHints: 0,
        maxConnections: 100,
        maxWorkers: 8,
        maxSenders: 10,
        maxPrepared: 0,
        maxLocks: 64,
        trackCommitTs: 0,
        walSegSize: size,
        ..*old
    }
}

/// The control file after a reset: the checkpoint's record is at this position, in segments of this
/// size.
pub fn new_control(
    options: &ResetOptions,
    now: i64,
    at: u64,
    size: SegSize,
    old: &Control,
) -> Control
    requires { IsControl old.now }
    ensures value { result ≡ new_control options.now now at (bytes_of size) old.now }
    ensures control { IsControl result }
{
    fields(options, now, at, size.bytes(), old)
}
