//! Texts of the manager Storage.

ghost use Rattle.std.specs.Prelude.{◌≡◌, ◌++◌, IfOk, string_bytes};
ghost use Rattle.rmgr_desc.specs.Pieces.{or_short};
ghost use Rattle.rmgr_desc.specs.Storage.{create_text, cut_text, storage_text};
ghost use Rattle.record_layouts.specs.Storage.{storage_create_of, storage_truncate_of};

use crate::pieces::add_short;
use record_layouts::{StorageCreate, StorageOp, StorageTruncate};
use std::alloc::AllocError;

/// Adds the text of a record with these main bytes.
pub fn add_storage(text: &mut String, op: StorageOp, main: &[u8]) -> Result<(), AllocError>
    ensures { IfOk result (λ _. string_bytes text.new
        ≡ string_bytes text.old ++ storage_text op main.now) }
{
    match op {
        StorageOp::Create => add_create(text, main),
        StorageOp::Truncate => add_cut(text, main),
        StorageOp::Unlisted(_) => Ok(()),
    }
}

fn add_create(text: &mut String, main: &[u8]) -> Result<(), AllocError>
    ensures { IfOk result (λ _. string_bytes text.new
        ≡ string_bytes text.old ++ or_short create_text (storage_create_of main.now)) }
{
    let Some(create) = StorageCreate::read(main) else {
        return add_short(text);
    };
    let rel = create.rel;
    let fork = create.fork.name();
    write!(text, "rel {rel} fork {fork}")
}

fn add_cut(text: &mut String, main: &[u8]) -> Result<(), AllocError>
    ensures { IfOk result (λ _. string_bytes text.new
        ≡ string_bytes text.old ++ or_short cut_text (storage_truncate_of main.now)) }
{
    let Some(cut) = StorageTruncate::read(main) else {
        return add_short(text);
    };
    let rel = cut.rel;
    let blocks = cut.blocks;
    let flags = cut.flags;
    write!(text, "rel {rel} to {blocks} blocks flags {flags}")
}
