//! The line of a record.

ghost use Rattle.std.specs.Prelude.{◌≡◌, ◌≤◌, ◌++◌, IfOk, replicate, string_bytes};
ghost use Rattle.block_refs.specs.Parts.{ArePartsOf};
ghost use Rattle.rmgr_desc.specs.Managers.{manager_name_of};
ghost use Rattle.rmgr_hooks.specs.Custom.{handed_in};
ghost use Rattle.waldump_core.specs.Line.{described, head_text, left_in, line_text, places_text, sizes_text};

use crate::position::add_lsn;
use crate::refs::add_refs;
use block_refs::Parts;
use rmgr_desc::{add_description, add_manager_name, add_operation_name};
use rmgr_hooks::Manager;
use std::alloc::{AllocError, Global};
use wal_base::{Lsn, OutOfMemory};
use wal_records::{Record, RecordHeader};

/// How wide the column of the managers' names is.
const NAMES: usize = 11;

/// So many spaces.
fn spaces(count: usize) -> &'static str
    requires { count ≤ 11 }
    ensures { result.now ≡ replicate count 32 }
{
    match count {
        0 => "",
        1 => " ",
        2 => "  ",
        3 => "   ",
        4 => "    ",
        5 => "     ",
        6 => "      ",
        7 => "       ",
        8 => "        ",
        9 => "         ",
        10 => "          ",
        _ => "           ",
    }
}

/// Adds the name of a manager, and spaces up to the end of its column.
#[tactic(auto, using(crate::proofs::LineLemmas::column_steps))]
fn add_name(text: &mut String, manager: u8) -> Result<(), OutOfMemory>
    ensures { IfOk result (λ _. string_bytes text.new
        ≡ string_bytes text.old ++ left_in 11 (manager_name_of manager)) }
{
    let from = text.len();
    add_manager_name(text, manager)?;
    let used = text.len().saturating_sub(from);
    text.push_str(spaces(NAMES.saturating_sub(used)))?;
    Ok(())
}

/// Adds the sizes of a record, of which `len` bytes aren't those of images, and its transaction.
#[tactic(auto, unfolding(crate::specs::Line::sizes_text))]
fn add_sizes(text: &mut String, header: RecordHeader, len: u32) -> Result<(), AllocError>
    ensures { IfOk result (λ _. string_bytes text.new
        ≡ string_bytes text.old ++ sizes_text header len) }
{
    let total = header.total;
    let xid = header.xid;
    write!(text, " len (rec/tot): {len:6}/{total:6}, tx: {xid:10}")
}

/// Adds where a record starts, and where the one before it does.
#[tactic(auto, unfolding(crate::specs::Line::places_text))]
fn add_places(text: &mut String, start: Lsn, prev: Lsn) -> Result<(), AllocError>
    ensures { IfOk result (λ _. string_bytes text.new
        ≡ string_bytes text.old ++ places_text start.0 prev.0) }
{
    text.push_str(", lsn: ")?;
    add_lsn(text, start)?;
    text.push_str(", prev ")?;
    add_lsn(text, prev)?;
    text.push_str(", desc: ")
}

/// Adds what stands before the name of the operation, in a record with so many bytes of images.
#[tactic(auto, unfolding(crate::specs::Line::head_text))]
fn add_head(text: &mut String, rec: &Record, images: u32) -> Result<(), OutOfMemory>
    ensures { IfOk result (λ _. string_bytes text.new ≡ string_bytes text.old ++ head_text rec.now images) }
{
    let header = rec.header();
    text.push_str("rmgr: ")?;
    add_name(text, header.manager)?;
    let len = header.total.saturating_sub(images);
    add_sizes(text, header, len)?;
    add_places(text, rec.start(), header.prev)?;
    Ok(())
}

/// Adds what stands behind the name of the operation: what a manager of an extension tells of its own
/// records, where one is handed in.
#[tactic(auto, unfolding(crate::specs::Line::described))]
fn add_described<M: Manager>(
    alloc: Global,
    text: &mut String,
    rec: &Record,
    parts: &Parts,
    custom: Option<&M>,
) -> Result<(), OutOfMemory>
    requires parts { ArePartsOf rec.now parts.now }
    ensures { IfOk result (λ _. string_bytes text.new ≡ string_bytes text.old
        ++ described (handed_in M.Manager custom.entry) rec.now parts.now) }
{
    let header = rec.header();
    match custom {
        Some(manager) if header.manager == M::ID => {
            let told = manager.describe(alloc, header.info, parts.main_bytes(rec))?;
            text.push_str(told.as_str())?;
            Ok(())
        }
        _ => add_description(text, rec, parts),
    }
}

/// Adds the line of a record with these parts, and with the details a line for each of its block
/// references. Answers `OutOfMemory` only for want of memory, and then the text is of no use.
#[tactic(auto, unfolding(crate::specs::Line::line_text))]
pub fn add_line<M: Manager>(
    alloc: Global,
    text: &mut String,
    rec: &Record,
    parts: &Parts,
    details: bool,
    custom: Option<&M>,
) -> Result<(), OutOfMemory>
    requires parts { ArePartsOf rec.now parts.now }
    ensures { IfOk result (λ _. string_bytes text.new ≡ string_bytes text.old
        ++ line_text (handed_in M.Manager custom.entry) details rec.now parts.now) }
{
    let header = rec.header();
    add_head(text, rec, parts.image_total())?;
    add_operation_name(text, header.manager, header.info)?;
    text.push_str(" ")?;
    add_described(alloc, text, rec, parts, custom)?;
    add_refs(text, parts, details)?;
    Ok(())
}
