//! Writing a control file.

ghost use Rattle.std.specs.Prelude.{Ok, Some, ◌≡◌, ◌≤◌, ◌++◌, drop, length, replicate};
ghost use Rattle.std.specs.List.{AllByRecursion};
ghost use Rattle.control_file.specs.Admission.{control_of, IsControl};
ghost use Rattle.control_file.specs.Reading.{checkpoint_of};
ghost use Rattle.control_file.specs.Rows.{rows_of};
ghost use Rattle.control_file.specs.Writing.{control_bytes, checkpoint_bytes, sealed};
ghost use Rattle.layout.specs.Rows.{RowFits};
ghost use Rattle.layout.specs.Writing.{laid};

use crate::checkpoint::Checkpoint;
use crate::control::Control;
use crate::format::{CHECKPOINT_AT, CHECKPOINT_SIZE, CRC_AT, FILE_SIZE, checksum};
use crate::rows::{build_rows, checkpoint_rows, head_rows, recovery_rows, setting_rows};
use layout::{Value, put, put_rows, write_rows};

/// Writes the control file into the first 8192 bytes, zeros where no field is, and its CRC.
pub fn write_control(control: &Control, into: &mut [u8])
    requires room { 8192 ≤ length into.old }
    // version 1300, catalog 202307071, and each field keeps its rule
    requires control { IsControl control.now }
    ensures bytes { into.new ≡ control_bytes control.now ++ drop 8192 into.old }
    // reading what was written gives the control again
    ensures again { control_of (control_bytes control.now) ≡ Ok control.now }
{
    let file = &mut into[..FILE_SIZE];
    lay(control, file);
    seal(file);
}

/// Writes the checkpoint copy into the first 88 bytes, zeros where no field is.
pub fn write_checkpoint(cp: &Checkpoint, into: &mut [u8])
    requires room { 88 ≤ length into.old }
    ensures bytes { into.new ≡ checkpoint_bytes cp.now ++ drop 88 into.old }
    // reading what was written gives the checkpoint again
    ensures again { checkpoint_of (checkpoint_bytes cp.now) ≡ Some cp.now }
{
    write_rows(&mut into[..CHECKPOINT_SIZE], &checkpoint_rows(0, cp));
}

/// Writes zeros, and over them each field at its offset.
fn lay(control: &Control, file: &mut [u8])
    requires { length file.old ≡ 8192 }
    ensures bytes { file.new ≡ laid (rows_of control.now) (replicate 8192 0) }
    ensures fits { AllByRecursion RowFits (rows_of control.now) }
{
    file.fill(0);
    put_rows(file, &head_rows(control));
    put_rows(file, &checkpoint_rows(CHECKPOINT_AT, &control.cp));
    put_rows(file, &recovery_rows(control));
    put_rows(file, &setting_rows(control));
    put_rows(file, &build_rows(control));
}

/// Writes the CRC of the bytes before it.
#[tactic(auto, unfolding(crate::specs::Writing::sealed))]
fn seal(file: &mut [u8])
    requires { length file.old ≡ 8192 }
    ensures { file.new ≡ sealed file.old }
{
    let crc = checksum(file);
    put(file, CRC_AT, Value::Word(crc));
}
