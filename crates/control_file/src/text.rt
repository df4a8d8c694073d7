//! The text of a control file, line by line.

ghost use Rattle.std.specs.Prelude.{◌≡◌, ◌≤◌, ◌++◌, ◌/◌, IfOk, string_bytes};
ghost use Rattle.std.specs.List.{AllByRecursion};
ghost use Rattle.control_file.specs.Rows.{rows_of};
ghost use Rattle.control_file.specs.Text.{checkpoint_lines, control_text_of, head_lines, oldest_lines, recovery_lines, redo_file_line, setting_lines, size_lines, storage_lines, with_lines};
ghost use Rattle.layout.specs.Rows.{Holds};
ghost use Rattle.wal_base.specs.SegSize.{IsSegSize};
ghost use Rattle.wal_base.specs.Segment.{bytes_of, segment_name};

use crate::checkpoint::Checkpoint;
use crate::control::Control;
use crate::line::{Xid, push_line, push_time_line};
use crate::names::{on_off, passing, state_name, wal_level_name, yes_no};
use std::alloc::Global;
use wal_base::{Lsn, OutOfMemory, SegSize, Segment, Text};

/// The text of a control file, as pg_controldata prints it: a line for each field. Answers
/// `OutOfMemory` only for want of memory.
pub fn control_text(alloc: Global, control: &Control) -> Result<Text, OutOfMemory>
    // each field keeps its rule
    requires shape { AllByRecursion Holds (rows_of control.now) }
    ensures { IfOk result (λ text. text ≡ control_text_of control.now) }
{
    let mut out = String::new(alloc);
    push_head(&mut out, control)?;
    push_redo_file(alloc, &mut out, control)?;
    push_checkpoint(&mut out, &control.cp)?;
    push_oldest(&mut out, &control.cp)?;
    push_recovery(&mut out, control)?;
    push_settings(&mut out, control)?;
    push_sizes(&mut out, control)?;
    push_storage(alloc, &mut out, control)?;
    Ok(Text::from(out))
}

/// What the cluster is, and where its last checkpoint stands.
#[tactic(auto, unfolding(crate::specs::Text::head_lines))]
fn push_head(out: &mut String, c: &Control) -> Result<(), OutOfMemory>
    requires { c.now.state ≤ 6 }
    ensures { IfOk result (λ _. string_bytes out.new ≡ with_lines (string_bytes out.old) (head_lines c.now)) }
{
    push_line(out, "pg_control version number:", &c.version)?;
    push_line(out, "Catalog version number:", &c.catalog)?;
    push_line(out, "Database system identifier:", &c.sysid)?;
    push_line(out, "Database cluster state:", &state_name(c.state))?;
    push_time_line(out, "pg_control last modified:", c.time)?;
    push_line(out, "Latest checkpoint location:", &Lsn(c.checkPoint))?;
    push_line(out, "Latest checkpoint's REDO location:", &Lsn(c.cp.redo))?;
    Ok(())
}

/// The last checkpoint.
#[tactic(auto, unfolding(crate::specs::Text::checkpoint_lines))]
fn push_checkpoint(out: &mut String, cp: &Checkpoint) -> Result<(), OutOfMemory>
    ensures { IfOk result (λ _. string_bytes out.new ≡ with_lines (string_bytes out.old) (checkpoint_lines cp.now)) }
{
    push_line(out, "Latest checkpoint's TimeLineID:", &cp.tli)?;
    push_line(out, "Latest checkpoint's PrevTimeLineID:", &cp.prevTli)?;
    push_line(
        out,
        "Latest checkpoint's full_page_writes:",
        &on_off(cp.fpw),
    )?;
    push_line(out, "Latest checkpoint's NextXID:", &Xid(cp.nextXid))?;
    push_line(out, "Latest checkpoint's NextOID:", &cp.nextOid)?;
    push_line(out, "Latest checkpoint's NextMultiXactId:", &cp.nextMulti)?;
    push_line(
        out,
        "Latest checkpoint's NextMultiOffset:",
        &cp.nextMultiOffset,
    )?;
    Ok(())
}

/// The oldest and newest ids that it knows.
#[tactic(auto, unfolding(crate::specs::Text::oldest_lines))]
fn push_oldest(out: &mut String, cp: &Checkpoint) -> Result<(), OutOfMemory>
    ensures { IfOk result (λ _. string_bytes out.new ≡ with_lines (string_bytes out.old) (oldest_lines cp.now)) }
{
    push_line(out, "Latest checkpoint's oldestXID:", &cp.oldestXid)?;
    push_line(out, "Latest checkpoint's oldestXID's DB:", &cp.oldestXidDb)?;
    push_line(
        out,
        "Latest checkpoint's oldestActiveXID:",
        &cp.oldestActiveXid,
    )?;
    push_line(out, "Latest checkpoint's oldestMultiXid:", &cp.oldestMulti)?;
    push_line(
        out,
        "Latest checkpoint's oldestMulti's DB:",
        &cp.oldestMultiDb,
    )?;
    push_line(
        out,
        "Latest checkpoint's oldestCommitTsXid:",
        &cp.oldestCommitTs,
    )?;
    push_line(
        out,
        "Latest checkpoint's newestCommitTsXid:",
        &cp.newestCommitTs,
    )?;
    push_time_line(out, "Time of latest checkpoint:", cp.time)?;
    Ok(())
}

/// How far a recovery has to go.
#[tactic(auto, unfolding(crate::specs::Text::recovery_lines))]
fn push_recovery(out: &mut String, c: &Control) -> Result<(), OutOfMemory>
    ensures { IfOk result (λ _. string_bytes out.new ≡ with_lines (string_bytes out.old) (recovery_lines c.now)) }
{
    push_line(
        out,
        "Fake LSN counter for unlogged rels:",
        &Lsn(c.unloggedLsn),
    )?;
    push_line(
        out,
        "Minimum recovery ending location:",
        &Lsn(c.minRecoveryPoint),
    )?;
    push_line(
        out,
        "Min recovery ending loc's timeline:",
        &c.minRecoveryPointTli,
    )?;
    push_line(out, "Backup start location:", &Lsn(c.backupStart))?;
    push_line(out, "Backup end location:", &Lsn(c.backupEnd))?;
    push_line(
        out,
        "End-of-backup record required:",
        &yes_no(c.endRequired),
    )?;
    Ok(())
}

/// The settings that the log was written under.
#[tactic(auto, unfolding(crate::specs::Text::setting_lines))]
fn push_settings(out: &mut String, c: &Control) -> Result<(), OutOfMemory>
    requires { c.now.walLevel ≤ 2 }
    ensures { IfOk result (λ _. string_bytes out.new ≡ with_lines (string_bytes out.old) (setting_lines c.now)) }
{
    push_line(out, "wal_level setting:", &wal_level_name(c.walLevel))?;
    push_line(out, "wal_log_hints setting:", &on_off(c.walLogHints))?;
    push_line(out, "max_connections setting:", &c.maxConnections)?;
    push_line(out, "max_worker_processes setting:", &c.maxWorkers)?;
    push_line(out, "max_wal_senders setting:", &c.maxSenders)?;
    push_line(out, "max_prepared_xacts setting:", &c.maxPrepared)?;
    push_line(out, "max_locks_per_xact setting:", &c.maxLocks)?;
    push_line(
        out,
        "track_commit_timestamp setting:",
        &on_off(c.trackCommitTs),
    )?;
    Ok(())
}

/// The sizes that the server was built with.
#[tactic(auto, unfolding(crate::specs::Text::size_lines))]
fn push_sizes(out: &mut String, c: &Control) -> Result<(), OutOfMemory>
    ensures { IfOk result (λ _. string_bytes out.new ≡ with_lines (string_bytes out.old) (size_lines c.now)) }
{
    push_line(out, "Maximum data alignment:", &c.maxAlign)?;
    push_line(out, "Database block size:", &c.blcksz)?;
    push_line(out, "Blocks per segment of large relation:", &c.relseg)?;
    push_line(out, "WAL block size:", &c.walBlcksz)?;
    push_line(out, "Bytes per WAL segment:", &c.walSegSize)?;
    push_line(out, "Maximum length of identifiers:", &c.nameLen)?;
    push_line(out, "Maximum columns in an index:", &c.indexKeys)?;
    push_line(out, "Maximum size of a TOAST chunk:", &c.toastChunk)?;
    push_line(out, "Size of a large-object chunk:", &c.loBlock)?;
    Ok(())
}

/// How it stores values.
#[tactic(auto, unfolding(crate::specs::Text::storage_lines))]
fn push_storage(alloc: Global, out: &mut String, c: &Control) -> Result<(), OutOfMemory>
    ensures { IfOk result (λ _. string_bytes out.new ≡ with_lines (string_bytes out.old) (storage_lines c.now)) }
{
    let nonce = hex::encode(alloc, c.nonce)?;
    push_line(out, "Date/time type storage:", &"64-bit integers")?;
    push_line(out, "Float8 argument passing:", &passing(c.float8ByVal))?;
    push_line(out, "Data page checksum version:", &c.checksumVersion)?;
    push_line(out, "Mock authentication nonce:", &nonce)?;
    Ok(())
}

/// The log's file in which a replay after the last checkpoint starts.
fn push_redo_file(alloc: Global, out: &mut String, c: &Control) -> Result<(), OutOfMemory>
    requires { IsSegSize c.now.walSegSize }
    ensures { IfOk result (λ _. string_bytes out.new ≡ string_bytes out.old ++ redo_file_line c.now) }
{
    let name = redo_file(alloc, c)?;
    push_line(out, "Latest checkpoint's REDO WAL file:", &name.as_str())?;
    Ok(())
}

/// The name of the log's file in which a replay after the last checkpoint starts.
fn redo_file(alloc: Global, c: &Control) -> Result<Text, OutOfMemory>
    requires { IsSegSize c.now.walSegSize }
    ensures { IfOk result (λ name. name ≡
        segment_name c.now.walSegSize c.now.cp.tli (c.now.cp.redo / c.now.walSegSize)) }
{
    Segment::of(c.cp.tli, Lsn(c.cp.redo), segment_size(c)).name(alloc)
}

/// The size of the log's segments.
fn segment_size(c: &Control) -> SegSize
    requires { IsSegSize c.now.walSegSize }
    ensures { bytes_of result ≡ c.now.walSegSize }
{
    SegSize::new(c.walSegSize).unwrap()
}
