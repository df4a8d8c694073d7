//! The values of checkpoints and of changed settings that replay takes.

ghost use Rattle.std.specs.Prelude.{◌≡◌};
ghost use Rattle.replay_profile.specs.Values.{has_counts, has_modes, is_count, is_flag, is_known_change, is_known_checkpoint, is_level, is_set, passes};

use record_layouts::{CheckpointPrefix, ParameterPrefix};

fn is_flag(value: Option<u8>) -> bool
    ensures { result ≡ passes is_flag value }
{
    match value {
        Some(value) => value <= 1,
        None => true,
    }
}

fn is_set(value: Option<u8>) -> bool
    ensures { result ≡ passes is_set value }
{
    match value {
        Some(value) => value == 1,
        None => true,
    }
}

fn is_count(value: Option<i32>) -> bool
    ensures { result ≡ passes is_count value }
{
    match value {
        Some(value) => 0 <= value,
        None => true,
    }
}

fn is_level(value: Option<i32>) -> bool
    ensures { result ≡ passes is_level value }
{
    match value {
        Some(value) => 0 <= value && value <= 2,
        None => true,
    }
}

fn has_counts(change: &ParameterPrefix) -> bool
    ensures { result ≡ has_counts change.now }
{
    is_count(change.max_connections)
        && is_count(change.max_workers)
        && is_count(change.max_senders)
        && is_count(change.max_prepared)
        && is_count(change.max_locks)
}

fn has_modes(change: &ParameterPrefix) -> bool
    ensures { result ≡ has_modes change.now }
{
    is_level(change.wal_level) && is_set(change.wal_log_hints) && is_flag(change.track_commit_ts)
}

/// Whether replay takes settings that change to these.
pub(crate) fn is_known_change(change: &ParameterPrefix) -> bool
    ensures { result ≡ is_known_change change.now }
{
    has_counts(change) && has_modes(change)
}

/// Whether replay takes a checkpoint of this.
pub(crate) fn is_known_checkpoint(cp: CheckpointPrefix) -> bool
    ensures { result ≡ is_known_checkpoint cp }
{
    is_flag(cp.fpw)
}
