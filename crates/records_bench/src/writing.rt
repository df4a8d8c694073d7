//! The log that is written.

use crate::supply::{New, Supply};
use anyhow::{Context, Result};
use std::alloc::Global;
use wal_base::{Lsn, SegSize};
use wal_records::LogWriter;

/// The position of the log's first byte: that of segment 1.
pub const START: u64 = 0x10_0000;

/// The size of a segment.
pub const SEGMENT: u32 = 0x10_0000;

/// The system that the pages name.
pub const SYSTEM: u64 = 7;

/// A log, and how many records were appended to it.
#[derive(Drop)]
pub struct WrittenLog {
    pub writer: LogWriter,
    pub records: u32,
}

/// Appends a record.
fn append(writer: &mut LogWriter, new: New) -> Result<()> {
    if new.manager > 21 || writer.position().0 > 1 << 62 {
        anyhow::bail!("no record that can be appended");
    }
    writer.append(new.xid, new.info, new.manager, new.body)?;
    Ok(())
}

/// A log of timeline 1 in segments of 1 MiB that reaches over so many bytes.
pub fn write_log(alloc: Global, supply: &Supply, size: u64) -> Result<WrittenLog> {
    let segment = SegSize::new(SEGMENT).context("the segment size")?;
    let mut writer = LogWriter::new(alloc, Lsn(START), 1, SYSTEM, segment)?;
    for number in 0..u32::MAX {
        if writer.position().0.saturating_sub(START) >= size {
            return Ok(WrittenLog {
                writer,
                records: number,
            });
        }
        append(&mut writer, supply.record(number))?;
    }
    anyhow::bail!("the log is too long")
}
