//! Texts of the manager Heap.

ghost use Rattle.std.specs.Prelude.{◌≡◌, ◌++◌, IfOk, string_bytes};
ghost use Rattle.record_layouts.specs.Heap.{heap_confirm_of, heap_delete_of, heap_inplace_of, heap_insert_of, heap_lock_of, heap_truncate_of, heap_update_of};
ghost use Rattle.rmgr_desc.specs.Heap.{confirm_text, delete_text, heap_text, inplace_text, insert_text, lock_text, truncate_text, update_text};
ghost use Rattle.rmgr_desc.specs.Pieces.{or_short};

use crate::pieces::{Flags, add_short};
use record_layouts::{
    HeapConfirm, HeapDelete, HeapInplace, HeapInsert, HeapLock, HeapOp, HeapTruncate, HeapUpdate,
};
use std::alloc::AllocError;

/// Adds the text of an operation with these main bytes.
pub fn add_heap(text: &mut String, op: HeapOp, main: &[u8]) -> Result<(), AllocError>
    ensures { IfOk result (λ _. string_bytes text.new
        ≡ string_bytes text.old ++ heap_text op main.now) }
{
    match op {
        HeapOp::Insert { .. } => add_insert(text, main),
        HeapOp::Delete => add_delete(text, main),
        HeapOp::Update { .. } | HeapOp::HotUpdate { .. } => add_update(text, main),
        HeapOp::Truncate => add_truncate(text, main),
        HeapOp::HeapConfirm => add_confirm(text, main),
        HeapOp::Lock => add_lock(text, main),
        HeapOp::Inplace => add_inplace(text, main),
    }
}

fn add_insert(text: &mut String, main: &[u8]) -> Result<(), AllocError>
    ensures { IfOk result (λ _. string_bytes text.new
        ≡ string_bytes text.old ++ or_short insert_text (heap_insert_of main.now)) }
{
    let Some(insert) = HeapInsert::read(main) else {
        return add_short(text);
    };
    let off = insert.off;
    let flags = Flags(insert.flags);
    write!(text, "off: {off}, flags: {flags}")
}

fn add_delete(text: &mut String, main: &[u8]) -> Result<(), AllocError>
    ensures { IfOk result (λ _. string_bytes text.new
        ≡ string_bytes text.old ++ or_short delete_text (heap_delete_of main.now)) }
{
    let Some(delete) = HeapDelete::read(main) else {
        return add_short(text);
    };
    let xmax = delete.xmax;
    let off = delete.off;
    let infobits = Flags(delete.infobits);
    let flags = Flags(delete.flags);
    write!(
        text,
        "xmax: {xmax}, off: {off}, infobits: {infobits}, flags: {flags}"
    )
}

fn add_update(text: &mut String, main: &[u8]) -> Result<(), AllocError>
    ensures { IfOk result (λ _. string_bytes text.new
        ≡ string_bytes text.old ++ or_short update_text (heap_update_of main.now)) }
{
    let Some(update) = HeapUpdate::read(main) else {
        return add_short(text);
    };
    let old_xmax = update.old_xmax;
    let old_off = update.old_off;
    let old_infobits = Flags(update.old_infobits);
    let flags = Flags(update.flags);
    let new_xmax = update.new_xmax;
    let new_off = update.new_off;
    write!(
        text,
        "old_xmax: {old_xmax}, old_off: {old_off}, old_infobits: {old_infobits}, flags: {flags}, new_xmax: {new_xmax}, new_off: {new_off}"
    )
}

fn add_truncate(text: &mut String, main: &[u8]) -> Result<(), AllocError>
    ensures { IfOk result (λ _. string_bytes text.new
        ≡ string_bytes text.old ++ or_short truncate_text (heap_truncate_of main.now)) }
{
    let Some(truncate) = HeapTruncate::read(main) else {
        return add_short(text);
    };
    let nrelids = truncate.nrelids;
    write!(text, "nrelids: {nrelids}")
}

fn add_confirm(text: &mut String, main: &[u8]) -> Result<(), AllocError>
    ensures { IfOk result (λ _. string_bytes text.new
        ≡ string_bytes text.old ++ or_short confirm_text (heap_confirm_of main.now)) }
{
    let Some(confirm) = HeapConfirm::read(main) else {
        return add_short(text);
    };
    let off = confirm.off;
    write!(text, "off: {off}")
}

/// Adds the text of LOCK, which is that of LOCK_UPDATED too.
pub fn add_lock(text: &mut String, main: &[u8]) -> Result<(), AllocError>
    ensures { IfOk result (λ _. string_bytes text.new
        ≡ string_bytes text.old ++ or_short lock_text (heap_lock_of main.now)) }
{
    let Some(lock) = HeapLock::read(main) else {
        return add_short(text);
    };
    let xmax = lock.xmax;
    let off = lock.off;
    let infobits = Flags(lock.infobits);
    let flags = Flags(lock.flags);
    write!(
        text,
        "xmax: {xmax}, off: {off}, infobits: {infobits}, flags: {flags}"
    )
}

fn add_inplace(text: &mut String, main: &[u8]) -> Result<(), AllocError>
    ensures { IfOk result (λ _. string_bytes text.new
        ≡ string_bytes text.old ++ or_short inplace_text (heap_inplace_of main.now)) }
{
    let Some(inplace) = HeapInplace::read(main) else {
        return add_short(text);
    };
    let off = inplace.off;
    write!(text, "off: {off}")
}
