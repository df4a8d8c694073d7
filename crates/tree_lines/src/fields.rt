// Files from their fields: each its offset, its width, its value, and maybe its name.
use crate::fault::LineFault;
use crate::words::{cut_at, long, number};
use wal_base::Crc32c;

/// Puts a number of so many bytes, the least first, at a place of a file. Answers `NotALine` where it has no such bytes.
pub fn put_number(file: &mut [u8; 8192], at: u32, width: u32, value: u64) -> Result<(), LineFault> {
    if at > 8184 || width > 8 {
        return Err(LineFault::NotALine);
    }
    let (at, width) = (at as usize, width as usize);
    file[at..at + width].copy_from_slice(&value.to_le_bytes()[..width]);
    Ok(())
}

fn put_field(file: &mut [u8; 8192], field: &str) -> Result<(), LineFault> {
    let (at, behind) = cut_at(field, " ");
    let (width, behind) = cut_at(behind, " ");
    let (value, _name) = cut_at(behind, " ");
    put_number(file, number(at)?, number(width)?, long(value)?)
}

/// Puts fields into a file, with commas between: `OFFSET WIDTH VALUE NAME`, where the name may be left out.
pub fn put_fields(file: &mut [u8; 8192], fields: &str) -> Result<(), LineFault> {
    for field in fields.split(", ") {
        put_field(file, field)?;
    }
    Ok(())
}

/// The CRC-32C of the first bytes of some, so many, or of none where there are fewer.
pub fn sum_of(bytes: &[u8], size: usize) -> u32 {
    let mut sum = Crc32c::new();
    sum.add(bytes.get(..size).unwrap_or(&[]));
    sum.value()
}
