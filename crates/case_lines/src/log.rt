// Logs, record by record.
use crate::fault::LineFault;
use crate::line::{below, bytes, first_word, narrow, number, path};
use crate::setup::add_file;
use cluster_tree::Path;
use memory_tree::MemoryTree;
use std::alloc::Global;
use wal_base::{Lsn, SegSize, Segment};
use wal_records::LogWriter;

/// A log that is being written, and where its segments go.
#[derive(Drop)]
pub struct NewLog {
    folder: Path,
    tli: u32,
    start: u64,
    size: SegSize,
    writer: LogWriter,
}

// What stands behind a field's name and `=` among these, or else this.
fn value_of<'a>(fields: &'a str, name: &str, missing: &'a str) -> &'a str {
    for field in fields.split(' ') {
        if let Some(value) = field.strip_prefix(name) {
            return value;
        }
    }
    missing
}

// Where the log begins, as a position.
fn start_of(fields: &str) -> Result<Lsn, LineFault> {
    Lsn::parse(value_of(fields, "at=", "0/100000")).ok_or(LineFault::NotAStart)
}

fn size_of(fields: &str) -> Result<SegSize, LineFault> {
    let size = narrow(value_of(fields, "size=", "1048576"))?;
    SegSize::new(size).ok_or(LineFault::NotAStart)
}

// A log of no records yet.
fn writer_of(
    alloc: Global,
    start: Lsn,
    tli: u32,
    system: u64,
    size: SegSize,
) -> Result<LogWriter, LineFault> {
    if start.0 % u64::from(size.bytes()) != 0 || start.0 >= 1 << 63 {
        return Err(LineFault::NotAStart);
    }
    Ok(LogWriter::new(alloc, start, tli, system, size)?)
}

impl NewLog {
    /// `log FOLDER [at=X/X] [tli=N] [size=BYTES] [system=N]`: a log of no records yet, from a
    /// segment's start on; without these of the segment at 0/100000, timeline 1, segments of 1 MB, and
    /// the system 7300000000000000001.
    pub fn new(alloc: Global, behind: &str) -> Result<NewLog, LineFault> {
        let (folder, fields) = first_word(behind);
        let tli = narrow(value_of(fields, "tli=", "1"))?;
        let start = start_of(fields)?;
        let size = size_of(fields)?;
        let system = number(value_of(fields, "system=", "7300000000000000001"))?;
        Ok(NewLog {
            folder: path(alloc, folder)?,
            tli,
            start: start.0,
            size,
            writer: writer_of(alloc, start, tli, system, size)?,
        })
    }

    #[tactic(auto, using(wal_records::proofs::NearLemmas::ends_near))]
    fn append(&mut self, xid: u32, info: u8, manager: u8, body: &[u8]) -> Result<(), LineFault> {
        if (manager > 21 && manager < 128) || self.writer.position().0 > 1 << 62 {
            return Err(LineFault::NotARecord);
        }
        self.writer.append(xid, info, manager, body)?;
        Ok(())
    }

    /// `record XID INFO MANAGER HEX`: appends a record with this body.
    pub fn add_record(&mut self, alloc: Global, behind: &str) -> Result<(), LineFault> {
        let (xid, behind) = first_word(behind);
        let (info, behind) = first_word(behind);
        let (manager, body) = first_word(behind);
        let body = bytes(alloc, body)?;
        self.append(narrow(xid)?, narrow(info)?, narrow(manager)?, &body)
    }

    /// `filler SIZE`: appends a NOOP of so many bytes in all, which say nothing.
    pub fn add_filler(&mut self, alloc: Global, behind: &str) -> Result<(), LineFault> {
        let total: u32 = narrow(behind)?;
        let main = total.saturating_sub(29);
        let [a, b, c, d] = main.to_le_bytes();
        let mut body = vec![in alloc; 254, a, b, c, d]?;
        body.resize(body.len() + main as usize, 0x5A)?;
        self.append(0, 0x20, 0, &body)
    }

    // Puts the segment at a position into the folder.
    fn put_segment(
        &self,
        alloc: Global,
        tree: &mut MemoryTree,
        at: u64,
        bytes: &[u8],
    ) -> Result<(), LineFault> {
        let segment = Segment::of(self.tli, Lsn(at), self.size);
        let name = segment.name(alloc)?;
        add_file(tree, &below(alloc, &self.folder, name.as_str())?, bytes)
    }

    /// Puts the segments that the log has so far into its folder.
    pub fn put(&self, alloc: Global, tree: &mut MemoryTree) -> Result<(), LineFault> {
        let size = self.size.bytes();
        let mut at = self.start;
        for bytes in self.writer.bytes().chunks(size as usize) {
            self.put_segment(alloc, tree, at, bytes)?;
            at = at.saturating_add(u64::from(size));
        }
        Ok(())
    }
}
