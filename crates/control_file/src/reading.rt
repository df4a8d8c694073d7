//! Reading a control file.

ghost use Rattle.std.specs.Prelude.{ℕ, ◌↔◌, Ok, Err, IfOk, ◌≡◌, ◌≤◌, ◌+◌, length};
ghost use Rattle.control_file.specs.Admission.{admitted, control_of, IsControl, IsControlFile, IsShapeFault};
ghost use Rattle.control_file.specs.Reading.{checkpoint_at, checkpoint_of, fields_at};
ghost use Rattle.control_file.specs.declared.control.Control.{Control};
ghost use Rattle.control_file.specs.declared.fault.ControlFault.TheVariants.{Shape};
ghost use Rattle.control_file.specs.declared.field.Field.{Field};

use crate::checkpoint::Checkpoint;
use crate::control::Control;
use crate::fault::ControlFault;
use crate::format::{
    CATALOG, CHECKPOINT_AT, CHECKPOINT_SIZE, CRC_AT, FILE_SIZE, VERSION, checksum,
};
use crate::rows::broken_row;
use layout::{i64_at, raw_at, u8_at, u32_at, u64_at};

/// What a control file of these bytes says, or why they are none: of several rules that they
/// break, the first by the order of `ControlFault`.
pub fn read_control(bytes: &[u8]) -> Result<Control, ControlFault>
    // the control that the bytes spell, or the first rule that they break
    ensures exact { result ≡ control_of bytes.now }
    // a control comes exactly of a control file
    ensures ok { (control : Control) → result ≡ Ok control ↔ IsControlFile bytes.now control }
    // what is read can be written and shown
    ensures control { IfOk result IsControl }
    // a shape fault is that of the least offset
    ensures shape { (field : Field) (value : ℕ) → result ≡ Err (Shape field value) →
        IsShapeFault bytes.now field value }
{
    read(bytes)
}

/// The checkpoint copy in the first 88 bytes, or `None` where there are fewer. No value is checked.
pub fn read_checkpoint(bytes: &[u8]) -> Option<Checkpoint>
    ensures { result ≡ checkpoint_of bytes.now }
{
    if bytes.len() < CHECKPOINT_SIZE {
        return None;
    }
    Some(checkpoint(bytes, 0))
}

#[tactic(auto, unfolding(crate::specs::Admission::control_of))]
fn read(bytes: &[u8]) -> Result<Control, ControlFault>
    ensures { result ≡ control_of bytes.now }
{
    if bytes.len() != FILE_SIZE {
        return Err(ControlFault::Size(bytes.len() as u64));
    }
    let stored = u32_at(bytes, CRC_AT);
    let computed = checksum(bytes);
    if stored != computed {
        return Err(ControlFault::Crc(stored, computed));
    }
    admit(fields(bytes))
}

#[tactic(auto, unfolding(crate::specs::Admission::admitted))]
fn admit(control: Control) -> Result<Control, ControlFault>
    ensures { result ≡ admitted control }
{
    if control.version != VERSION {
        return Err(ControlFault::Version(control.version));
    }
    if control.catalog != CATALOG {
        return Err(ControlFault::Catalog(control.catalog));
    }
    match broken_row(&control) {
        Some(row) => Err(ControlFault::Shape(row.field, row.value.number())),
        None => Ok(control),
    }
}

#[tactic(auto, unfolding(crate::specs::Reading::fields_at))]
fn fields(bytes: &[u8]) -> Control
    requires { length bytes.now ≡ 8192 }
    ensures { result ≡ fields_at bytes.now }
{
    Control {
        sysid: u64_at(bytes, 0),
        version: u32_at(bytes, 8),
        catalog: u32_at(bytes, 12),
        state: u32_at(bytes, 16),
        time: i64_at(bytes, 24),
        checkPoint: u64_at(bytes, 32),
        cp: checkpoint(bytes, CHECKPOINT_AT),
        unloggedLsn: u64_at(bytes, 128),
        minRecoveryPoint: u64_at(bytes, 136),
        minRecoveryPointTli: u32_at(bytes, 144),
        backupStart: u64_at(bytes, 152),
        backupEnd: u64_at(bytes, 160),
        endRequired: u8_at(bytes, 168),
        walLevel: u32_at(bytes, 172),
        walLogHints: u8_at(bytes, 176),
        maxConnections: u32_at(bytes, 180),
        maxWorkers: u32_at(bytes, 184),
        maxSenders: u32_at(bytes, 188),
        maxPrepared: u32_at(bytes, 192),
        maxLocks: u32_at(bytes, 196),
        trackCommitTs: u8_at(bytes, 200),
        maxAlign: u32_at(bytes, 204),
        floatFormat: u64_at(bytes, 208),
        blcksz: u32_at(bytes, 216),
        relseg: u32_at(bytes, 220),
        walBlcksz: u32_at(bytes, 224),
        walSegSize: u32_at(bytes, 228),
        nameLen: u32_at(bytes, 232),
        indexKeys: u32_at(bytes, 236),
        toastChunk: u32_at(bytes, 240),
        loBlock: u32_at(bytes, 244),
        float8ByVal: u8_at(bytes, 248),
        checksumVersion: u32_at(bytes, 252),
        nonce: raw_at(bytes, 256),
    }
}

#[tactic(auto, unfolding(crate::specs::Reading::checkpoint_at))]
fn checkpoint(bytes: &[u8], at: usize) -> Checkpoint
    requires { at + 88 ≤ length bytes.now }
    ensures { result ≡ checkpoint_at at bytes.now }
{
    Checkpoint {
        redo: u64_at(bytes, at),
        tli: u32_at(bytes, at + 8),
        prevTli: u32_at(bytes, at + 12),
        fpw: u8_at(bytes, at + 16),
        nextXid: u64_at(bytes, at + 24),
        nextOid: u32_at(bytes, at + 32),
        nextMulti: u32_at(bytes, at + 36),
        nextMultiOffset: u32_at(bytes, at + 40),
        oldestXid: u32_at(bytes, at + 44),
        oldestXidDb: u32_at(bytes, at + 48),
        oldestMulti: u32_at(bytes, at + 52),
        oldestMultiDb: u32_at(bytes, at + 56),
        time: i64_at(bytes, at + 64),
        oldestCommitTs: u32_at(bytes, at + 72),
        newestCommitTs: u32_at(bytes, at + 76),
        oldestActiveXid: u32_at(bytes, at + 80),
    }
}
