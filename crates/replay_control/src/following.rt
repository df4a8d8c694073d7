//! The control file as replay takes it along, and as it leaves it.

ghost use Rattle.std.specs.Prelude.{◌≡◌, ◌<◌, ◌^◌, IfSome, Option, true};
ghost use Rattle.block_refs.specs.Parts.{ArePartsOf};
ghost use Rattle.control_file.specs.Admission.{IsControl};
ghost use Rattle.rmgr_hooks.specs.Custom.{Extension};
ghost use Rattle.replay_profile.specs.Profile.{is_in_profile};
ghost use Rattle.replay_control.specs.Following.{AreSmall, control_after, control_left, counted, with_checkpoint, with_settings};

use crate::said::{change_said, checkpoint_said};
use block_refs::Parts;
use control_file::{Checkpoint, Control};
use record_layouts::ParameterChange;
use wal_base::Lsn;
use wal_records::Record;

fn with_checkpoint(start: Lsn, said: Option<Checkpoint>, control: &Control) -> Control
    ensures { result ≡ with_checkpoint start.0 said control.now }
{
    match said {
        None => *control,
        Some(cp) => Control {
            checkPoint: start.0,
            cp,
            ..*control
        },
    }
}

/// A setting that counts, which is never below 0.
fn counted(setting: i32) -> u32
    ensures value { result ≡ counted setting }
    ensures small { result < 2 ^ 31 }
{
    if setting < 0 { 0 } else { setting as u32 }
}

fn with_settings(said: Option<ParameterChange>, control: &Control) -> Control
    ensures value { result ≡ with_settings said control.now }
    ensures small { IfSome said AreSmall }
{
    match said {
        None => *control,
        Some(change) => Control {
            walLevel: counted(change.wal_level),
            walLogHints: change.wal_log_hints,
            maxConnections: counted(change.max_connections),
            maxWorkers: counted(change.max_workers),
            maxSenders: counted(change.max_senders),
            maxPrepared: counted(change.max_prepared),
            maxLocks: counted(change.max_locks),
            trackCommitTs: change.track_commit_ts,
            ..*control
        },
    }
}

/// The control file behind a record: the record of a checkpoint becomes the last one, with its copy,
/// and changed settings take the place of those that were. The parts have to be those of the record.
/// Behind a record of replay's profile it is one that can be written.
#[tactic(auto, unfolding(crate::specs::Following::control_after))]
pub fn control_after(rec: &Record, parts: &Parts, control: &Control) -> Control
    requires parts { ArePartsOf rec.now parts.now }
    ensures value { result ≡ control_after rec.now parts.now control.now }
    ensures control { (custom : Option Extension) → is_in_profile custom rec.now parts.now ≡ true →
        IsControl control.now → IsControl result }
{
    let followed = with_checkpoint(rec.start(), checkpoint_said(rec, parts), control);
    with_settings(change_said(rec, parts), &followed)
}

#[tactic(auto, unfolding(crate::specs::Following::control_left))]
fn leave(tli: u32, end: Lsn, control: &Control) -> Control
    ensures { result ≡ control_left tli end.0 control.now }
{
    Control {
        state: 2,
        minRecoveryPoint: end.0,
        minRecoveryPointTli: tli,
        backupStart: 0,
        backupEnd: 0,
        endRequired: 0,
        ..*control
    }
}

/// The control file that a replay to this end of the log writes, on this timeline.
pub fn control_left(tli: u32, end: Lsn, control: &Control) -> Control
    ensures value { result ≡ control_left tli end.0 control.now }
    ensures control { IsControl control.now → IsControl result }
{
    leave(tli, end, control)
}
