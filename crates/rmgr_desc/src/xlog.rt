//! Texts of the manager XLOG.

ghost use Rattle.std.specs.Prelude.{◌≡◌, ◌<◌, ◌++◌, IfOk, IfSome, length, map, string_bytes};
ghost use Rattle.std.specs.List.{before_first, position};
ghost use Rattle.record_layouts.specs.Fields.{is_zero};
ghost use Rattle.record_layouts.specs.Xlog.{backup_end_of, end_of_recovery_of, fpw_change_of, next_oid_of, overwrite_contrecord_of, parameter_change_of, restore_point_of};
ghost use Rattle.rmgr_desc.specs.Pieces.{or_short};
ghost use Rattle.rmgr_desc.specs.Xlog.{backup_end_text, fpw_text, next_oid_text, overwrite_text, parameters_text, recovery_text, restore_point_text, shown, xlog_text};

use crate::checkpoint::add_checkpoint;
use crate::pieces::{add_short, switch};
use record_layouts::{
    BackupEnd, EndOfRecovery, FpwChange, NextOid, OverwriteContrecord, ParameterChange,
    RestorePoint, XlogOp,
};
use std::alloc::AllocError;
use std::fmt;

/// Adds the text of an operation with these main bytes.
pub fn add_xlog(text: &mut String, op: XlogOp, main: &[u8]) -> Result<(), AllocError>
    ensures { IfOk result (λ _. string_bytes text.new
        ≡ string_bytes text.old ++ xlog_text op main.now) }
{
    match op {
        XlogOp::CheckpointShutdown => add_checkpoint(text, main, "shutdown"),
        XlogOp::CheckpointOnline => add_checkpoint(text, main, "online"),
        XlogOp::NextOid => add_next_oid(text, main),
        XlogOp::BackupEnd => add_backup_end(text, main),
        XlogOp::ParameterChange => add_parameters(text, main),
        XlogOp::RestorePoint => add_restore_point(text, main),
        XlogOp::FpwChange => add_fpw(text, main),
        XlogOp::EndOfRecovery => add_recovery(text, main),
        XlogOp::OverwriteContrecord => add_overwrite(text, main),
        XlogOp::Noop | XlogOp::Switch | XlogOp::FpiForHint | XlogOp::Fpi => Ok(()),
        XlogOp::Unlisted(_) => Ok(()),
    }
}

fn add_next_oid(text: &mut String, main: &[u8]) -> Result<(), AllocError>
    ensures { IfOk result (λ _. string_bytes text.new
        ≡ string_bytes text.old ++ or_short next_oid_text (next_oid_of main.now)) }
{
    let Some(next) = NextOid::read(main) else {
        return add_short(text);
    };
    let oid = next.oid;
    write!(text, "{oid}")
}

fn add_backup_end(text: &mut String, main: &[u8]) -> Result<(), AllocError>
    ensures { IfOk result (λ _. string_bytes text.new
        ≡ string_bytes text.old ++ or_short backup_end_text (backup_end_of main.now)) }
{
    let Some(backup) = BackupEnd::read(main) else {
        return add_short(text);
    };
    let start = backup.start;
    write!(text, "{start}")
}

/// How many processes there may be.
#[derive(Clone, Copy)]
struct Processes(ParameterChange);

impl fmt::Display for Processes {
    ghost use Rattle.std.specs.Prelude.{Some};
    ghost use Rattle.rmgr_desc.specs.Xlog.{processes_text};

    ghost output = { λ p. Some (processes_text p.0) };

    #[tactic(auto, unfolding(crate::specs::Xlog::processes_text))]
    fn fmt<W: fmt::Write>(&self, f: &mut fmt::Formatter<W>) -> fmt::Result {
        let connections = self.0.max_connections;
        let workers = self.0.max_workers;
        let senders = self.0.max_senders;
        write!(
            f,
            "max_connections={connections} max_worker_processes={workers} max_wal_senders={senders}"
        )
    }
}

/// What else is limited.
#[derive(Clone, Copy)]
struct Limits(ParameterChange);

impl fmt::Display for Limits {
    ghost use Rattle.std.specs.Prelude.{Some};
    ghost use Rattle.rmgr_desc.specs.Xlog.{limits_text};

    ghost output = { λ p. Some (limits_text p.0) };

    #[tactic(auto, unfolding(crate::specs::Xlog::limits_text))]
    fn fmt<W: fmt::Write>(&self, f: &mut fmt::Formatter<W>) -> fmt::Result {
        let prepared = self.0.max_prepared;
        let locks = self.0.max_locks;
        write!(
            f,
            "max_prepared_xacts={prepared} max_locks_per_xact={locks}"
        )
    }
}

/// What is on.
#[derive(Clone, Copy)]
struct Switches(ParameterChange);

impl fmt::Display for Switches {
    ghost use Rattle.std.specs.Prelude.{Some};
    ghost use Rattle.rmgr_desc.specs.Xlog.{switches_text};

    ghost output = { λ p. Some (switches_text p.0) };

    #[tactic(auto, unfolding(crate::specs::Xlog::switches_text))]
    fn fmt<W: fmt::Write>(&self, f: &mut fmt::Formatter<W>) -> fmt::Result {
        let hints = switch(self.0.wal_log_hints);
        let commit_ts = switch(self.0.track_commit_ts);
        write!(
            f,
            "wal_log_hints={hints} track_commit_timestamp={commit_ts}"
        )
    }
}

/// What the log says beside what it has to.
#[derive(Clone, Copy)]
struct Levels(ParameterChange);

impl fmt::Display for Levels {
    ghost use Rattle.std.specs.Prelude.{Some};
    ghost use Rattle.rmgr_desc.specs.Xlog.{levels_text};

    ghost output = { λ p. Some (levels_text p.0) };

    #[tactic(auto, unfolding(crate::specs::Xlog::levels_text))]
    fn fmt<W: fmt::Write>(&self, f: &mut fmt::Formatter<W>) -> fmt::Result {
        let level = self.0.wal_level;
        let switches = Switches(self.0);
        write!(f, "wal_level={level} {switches}")
    }
}

fn add_parameters(text: &mut String, main: &[u8]) -> Result<(), AllocError>
    ensures { IfOk result (λ _. string_bytes text.new
        ≡ string_bytes text.old ++ or_short parameters_text (parameter_change_of main.now)) }
{
    let Some(change) = ParameterChange::read(main) else {
        return add_short(text);
    };
    let processes = Processes(change);
    let limits = Limits(change);
    let levels = Levels(change);
    write!(text, "{processes} {limits} {levels}")
}

/// Where the first zero is.
fn zero_at(bytes: &[u8]) -> Option<usize>
    ensures value { result ≡ position is_zero bytes.now }
    ensures within { IfSome result (λ at. at < length bytes.now) }
{
    bytes.iter().position(|&byte| byte == 0)
}

/// The bytes before the first zero, or all where there is none.
#[tactic(auto, using(crate::proofs::ZeroLemmas::taken_to_zero, crate::proofs::ZeroLemmas::no_zero))]
fn before_zero(bytes: &[u8]) -> &[u8]
    ensures { result.now ≡ before_first is_zero bytes.now }
{
    match zero_at(bytes) {
        Some(size) => &bytes[..size],
        None => bytes,
    }
}

/// A byte of a name as it is shown: one that isn't printable ASCII as `?`.
fn shown(byte: u8) -> u8
    ensures value { result ≡ shown byte }
    ensures ascii { result < 128 }
{
    if byte >= 0x20 && byte <= 0x7E {
        byte
    } else {
        b'?'
    }
}

fn add_name(text: &mut String, name: &[u8]) -> Result<(), AllocError>
    ensures { IfOk result (λ _. string_bytes text.new
        ≡ string_bytes text.old ++ map shown name.now) }
{
    for byte in name {
        text.push(char::from(shown(*byte)))?;
    }
    Ok(())
}

fn add_restore_point(text: &mut String, main: &[u8]) -> Result<(), AllocError>
    ensures { IfOk result (λ _. string_bytes text.new
        ≡ string_bytes text.old ++ or_short restore_point_text (restore_point_of main.now)) }
{
    let Some(point) = RestorePoint::read(main) else {
        return add_short(text);
    };
    add_name(text, before_zero(point.name.slice()))
}

fn add_fpw(text: &mut String, main: &[u8]) -> Result<(), AllocError>
    ensures { IfOk result (λ _. string_bytes text.new
        ≡ string_bytes text.old ++ or_short fpw_text (fpw_change_of main.now)) }
{
    let Some(change) = FpwChange::read(main) else {
        return add_short(text);
    };
    text.push_str(switch(change.fpw))
}

fn add_recovery(text: &mut String, main: &[u8]) -> Result<(), AllocError>
    ensures { IfOk result (λ _. string_bytes text.new
        ≡ string_bytes text.old ++ or_short recovery_text (end_of_recovery_of main.now)) }
{
    let Some(end) = EndOfRecovery::read(main) else {
        return add_short(text);
    };
    let tli = end.tli;
    let prev = end.prev_tli;
    write!(text, "tli {tli}; prev tli {prev}")
}

fn add_overwrite(text: &mut String, main: &[u8]) -> Result<(), AllocError>
    ensures { IfOk result (λ _. string_bytes text.new
        ≡ string_bytes text.old ++ or_short overwrite_text (overwrite_contrecord_of main.now)) }
{
    let Some(overwrite) = OverwriteContrecord::read(main) else {
        return add_short(text);
    };
    let lsn = overwrite.lsn;
    write!(text, "lsn {lsn}")
}
