// Control files.
use crate::entries::sum_of;
use crate::fault::LineFault;
use crate::line::number;

/// How many bytes a control file has.
pub(crate) const SIZE: usize = 8192;

const CRC_AT: usize = 288;

// Fields with their offsets and widths, by the names of docs/FORMATS.md.
const FIELDS: [(&str, usize, usize); 28] = [
    ("sysid", 0, 8),
    ("version", 8, 4),
    ("catalog", 12, 4),
    ("state", 16, 4),
    ("time", 24, 8),
    ("checkPoint", 32, 8),
    ("cp.redo", 40, 8),
    ("cp.tli", 48, 4),
    ("cp.prevTli", 52, 4),
    ("cp.fpw", 56, 1),
    ("cp.nextXid", 64, 8),
    ("cp.nextOid", 72, 4),
    ("cp.nextMulti", 76, 4),
    ("cp.oldestXid", 84, 4),
    ("cp.oldestXidDb", 88, 4),
    ("cp.oldestMulti", 92, 4),
    ("cp.oldestMultiDb", 96, 4),
    ("cp.time", 104, 8),
    ("minRecoveryPoint", 136, 8),
    ("minRecoveryPointTli", 144, 4),
    ("walLogHints", 176, 1),
    ("maxAlign", 204, 4),
    ("floatFormat", 208, 8),
    ("blcksz", 216, 4),
    ("relseg", 220, 4),
    ("walBlcksz", 224, 4),
    ("walSegSize", 228, 4),
    ("checksumVersion", 252, 4),
];

// The fields of a cluster that was shut down on timeline 1; `floatFormat` has the bits of 1234567.0.
const SHUT_DOWN: &str =
    "sysid=7300000000000000001 version=1300 catalog=202307071 state=1 cp.tli=1 cp.prevTli=1 \
walLogHints=1 maxAlign=8 floatFormat=4698053236609777664 blcksz=8192 relseg=131072 walBlcksz=8192 walSegSize=1048576";

fn put(file: &mut [u8; SIZE], at: usize, width: usize, value: u64) -> Result<(), LineFault> {
    if at > CRC_AT || width > 8 {
        return Err(LineFault::NotAField);
    }
    file[at..at + width].copy_from_slice(&value.to_le_bytes()[..width]);
    Ok(())
}

// The offset and the width of a field.
fn place_of(name: &str) -> Option<(usize, usize)> {
    for (known, at, width) in &FIELDS {
        if *known == name {
            return Some((*at, *width));
        }
    }
    None
}

// `NAME=VALUE`.
fn put_field(file: &mut [u8; SIZE], field: &str) -> Result<(), LineFault> {
    let (name, value) = field.split_once('=').ok_or(LineFault::NotAField)?;
    let (at, width) = place_of(name).ok_or(LineFault::NotAField)?;
    put(file, at, width, number(value)?)
}

// `NAME=VALUE ..`.
fn put_fields(file: &mut [u8; SIZE], fields: &str) -> Result<(), LineFault> {
    for field in fields.split(' ') {
        if !field.is_empty() {
            put_field(file, field)?;
        }
    }
    Ok(())
}

/// Lays into zeros the control file of a cluster that was shut down on timeline 1, with these fields changed
/// (`NAME=VALUE ..`) and the checksum of them.
pub(crate) fn lay_control(file: &mut [u8; SIZE], fields: &str) -> Result<(), LineFault> {
    put_fields(file, SHUT_DOWN)?;
    put_fields(file, fields)?;
    let crc = sum_of(&file[..CRC_AT]);
    put(file, CRC_AT, 4, u64::from(crc))
}
