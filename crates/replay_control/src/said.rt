//! What records say of the control file.

ghost use Rattle.std.specs.Prelude.{◌≡◌};
ghost use Rattle.block_refs.specs.Parts.{ArePartsOf};
ghost use Rattle.replay_profile.specs.Profile.{done_by};
ghost use Rattle.replay_control.specs.Said.{change_by, change_by_xlog, change_said, checkpoint_by, checkpoint_by_xlog, checkpoint_said};

use block_refs::Parts;
use control_file::{Checkpoint, read_checkpoint};
use record_layouts::{Operation, ParameterChange, XlogOp};
use wal_records::Record;

fn done_by(rec: &Record) -> Operation
    ensures { result ≡ done_by rec.now }
{
    let header = rec.header();
    Operation::of(header.manager, header.info)
}

fn checkpoint_by_xlog(op: XlogOp, main: &[u8]) -> Option<Checkpoint>
    ensures { result ≡ checkpoint_by_xlog op main.now }
{
    match op {
        XlogOp::CheckpointShutdown | XlogOp::CheckpointOnline => read_checkpoint(main),
        _ => None,
    }
}

/// The checkpoint that a record tells of, at a shutdown or any other one; `None` where it is no
/// checkpoint record, or its layout isn't whole. The parts have to be those of the record.
pub fn checkpoint_said(rec: &Record, parts: &Parts) -> Option<Checkpoint>
    requires parts { ArePartsOf rec.now parts.now }
    ensures { result ≡ checkpoint_said rec.now parts.now }
{
    match done_by(rec) {
        Operation::Xlog(op) => checkpoint_by_xlog(op, parts.main_bytes(rec)),
        _ => None,
    }
}

fn change_by_xlog(op: XlogOp, main: &[u8]) -> Option<ParameterChange>
    ensures { result ≡ change_by_xlog op main.now }
{
    match op {
        XlogOp::ParameterChange => ParameterChange::read(main),
        _ => None,
    }
}

/// The settings of a record that changes them.
pub(crate) fn change_said(rec: &Record, parts: &Parts) -> Option<ParameterChange>
    requires parts { ArePartsOf rec.now parts.now }
    ensures { result ≡ change_said rec.now parts.now }
{
    match done_by(rec) {
        Operation::Xlog(op) => change_by_xlog(op, parts.main_bytes(rec)),
        _ => None,
    }
}
