//! Whether a record is in the profile of replay.

ghost use Rattle.std.specs.Prelude.{◌≡◌, Ok, Err, OnOk, MatchResult};
ghost use Rattle.block_refs.specs.Outcomes.{record_parts};
ghost use Rattle.block_refs.specs.Parts.{ArePartsOf};
ghost use Rattle.rmgr_hooks.specs.Custom.{handed_in};
ghost use Rattle.replay_profile.specs.Profile.{done_by, is_in_profile, is_known, is_short, judged, outside, parts_or_none};

use crate::fault::{ProfileFault, without_parts};
use crate::fields::takes_fields;
use crate::operations::is_known_operation;
use crate::references::are_known;
use block_refs::{Parts, split_into};
use record_layouts::Operation;
use rmgr_hooks::Manager;
use wal_records::Record;

/// What a record does.
fn done_by(rec: &Record) -> Operation
    ensures { result ≡ done_by rec.now }
{
    let header = rec.header();
    Operation::of(header.manager, header.info)
}

/// Whether replay knows what a record does: by the manager of an extension of its own records, where one
/// is handed in.
fn is_known<M: Manager>(rec: &Record, custom: Option<&M>) -> bool
    ensures { result ≡ is_known (handed_in M.Manager custom.entry) rec.now }
{
    let header = rec.header();
    match custom {
        Some(manager) if header.manager == M::ID => manager.knows(header.info),
        _ => is_known_operation(done_by(rec)),
    }
}

/// Whether replay takes a record: each block that it references, and each relation and database
/// that it makes, cuts or drops, has a name that replay knows; it references no block twice; its
/// operation is one that replay knows, or that the manager of an extension knows for its own records,
/// where one is handed in; and the values of a checkpoint and of changed settings are
/// those that a control file of a cluster with `wal_log_hints` may have. Names and values of a
/// layout that isn't whole are looked at as far as they are there. The parts have to be those of
/// the record.
pub fn is_in_profile<M: Manager>(rec: &Record, parts: &Parts, custom: Option<&M>) -> bool
    requires parts { ArePartsOf rec.now parts.now }
    ensures { result ≡ is_in_profile (handed_in M.Manager custom.entry) rec.now parts.now }
{
    are_known(parts) && is_known(rec, custom) && takes_fields(done_by(rec), parts.main_bytes(rec))
}

/// Whether the main bytes of a record lack some of its layout. An operation whose layout isn't read
/// is never short, and what a block's own bytes lack isn't looked at. The parts have to be those of
/// the record.
pub fn is_short(rec: &Record, parts: &Parts) -> bool
    requires parts { ArePartsOf rec.now parts.now }
    ensures { result ≡ is_short rec.now parts.now }
{
    !done_by(rec).is_whole(parts.main_bytes(rec))
}

/// The fault of a record outside.
fn outside(rec: &Record) -> ProfileFault
    ensures { result ≡ outside rec.now }
{
    let header = rec.header();
    ProfileFault::NotInProfile(rec.start(), header.manager, header.info)
}

/// Reads the parts of a record into `parts`, in place of what is there, and judges it. It takes no
/// memory.
///
/// Answers `BadParts` and `Compressed` where the record has no parts, as `split_into` does, and
/// then there are none; and `NotInProfile` where replay doesn't take it.
pub fn judge<M: Manager>(
    rec: &Record,
    parts: &mut Parts,
    custom: Option<&M>,
) -> Result<(), ProfileFault>
    ensures exact { MatchResult result
        (λ _. judged (handed_in M.Manager custom.entry) rec.now ≡ Ok parts.new)
        (λ e. judged (handed_in M.Manager custom.entry) rec.now ≡ Err e) }
    ensures left { parts.new ≡ parts_or_none (record_parts rec.now) }
    ensures parts { OnOk result (ArePartsOf rec.now parts.new) }
{
    split_into(rec, parts).map_err(without_parts)?;
    if !is_in_profile(rec, parts, custom) {
        return Err(outside(rec));
    }
    Ok(())
}
