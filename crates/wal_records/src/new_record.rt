//! The bytes of a record that is appended.

ghost use Rattle.std.specs.Prelude.{◌≡◌, ◌+◌, ◌≤◌, ◌++◌, length, IfOk};
ghost use Rattle.wal_base.specs.Crc.{crc32c};
ghost use Rattle.wal_records.specs.Header.{greatest_total};
ghost use Rattle.wal_records.specs.Writer.{new_record, link_to, record_bytes, record_front};

use std::alloc::{AllocError, Global};
use wal_base::Crc32c;

/// The link back of a record: where the one before it starts, or 0.
fn link_to(before: Option<u64>) -> u64
    ensures { result ≡ link_to before }
{
    match before {
        Some(before) => before,
        None => 0,
    }
}

/// Adds the first 20 bytes of a record's header, all but its checksum.
fn add_front(
    into: &mut Vec<u8>,
    before: Option<u64>,
    xid: u32,
    info: u8,
    manager: u8,
    body: &[u8],
) -> Result<(), AllocError>
    requires longest { 24 + length body.now ≤ greatest_total }
    ensures { IfOk result (λ _. into.new.items
        ≡ into.old.items ++ record_front before (new_record xid info manager body.now)) }
{
    let total = 24 + body.len() as u32;
    let prev = link_to(before);
    into.extend_from_slice(&total.to_le_bytes())?;
    into.extend_from_slice(&xid.to_le_bytes())?;
    into.extend_from_slice(&prev.to_le_bytes())?;
    into.extend_from_slice(&[info, manager, 0, 0])?;
    Ok(())
}

/// The checksum of a record with this body and these first 20 bytes of its header.
fn sum_of(body: &[u8], front: &[u8]) -> u32
    ensures { result ≡ crc32c (body.now ++ front.now) }
{
    let mut crc = Crc32c::new();
    crc.add(body);
    crc.add(front);
    crc.value()
}

/// All bytes of a record: its header, with its link back and its checksum, and its body.
pub fn record_bytes(
    alloc: Global,
    before: Option<u64>,
    xid: u32,
    info: u8,
    manager: u8,
    body: &[u8],
) -> Result<Vec<u8>, AllocError>
    requires longest { 24 + length body.now ≤ greatest_total }
    ensures value { IfOk result (λ bytes.
        bytes.items ≡ record_bytes before (new_record xid info manager body.now)) }
    ensures size { IfOk result (λ bytes. length bytes.items ≡ 24 + length body.now) }
{
    let mut bytes = Vec::new(alloc);
    add_front(&mut bytes, before, xid, info, manager, body)?;
    let sum = sum_of(body, &bytes);
    bytes.extend_from_slice(&sum.to_le_bytes())?;
    bytes.extend_from_slice(body)?;
    Ok(bytes)
}
