//! Texts of the manager Btree.

ghost use Rattle.std.specs.Prelude.{◌≡◌, ◌++◌, IfOk, string_bytes};
ghost use Rattle.record_layouts.specs.Btree.{btree_dedup_of, btree_delete_of, btree_insert_of, btree_new_root_of, btree_split_of, btree_vacuum_of};
ghost use Rattle.rmgr_desc.specs.Btree.{btree_text, dedup_text, delete_text, insert_text, new_root_text, split_text, vacuum_text};
ghost use Rattle.rmgr_desc.specs.Pieces.{or_short};

use crate::pieces::add_short;
use record_layouts::{
    BtreeDedup, BtreeDelete, BtreeInsert, BtreeNewRoot, BtreeOp, BtreeSplit, BtreeVacuum,
};
use std::alloc::AllocError;

/// Adds the text of an operation with these main bytes.
pub fn add_btree(text: &mut String, op: BtreeOp, main: &[u8]) -> Result<(), AllocError>
    ensures { IfOk result (λ _. string_bytes text.new
        ≡ string_bytes text.old ++ btree_text op main.now) }
{
    match op {
        BtreeOp::InsertLeaf | BtreeOp::InsertUpper | BtreeOp::InsertMeta => add_insert(text, main),
        BtreeOp::SplitLeft | BtreeOp::SplitRight => add_split(text, main),
        BtreeOp::InsertPost => add_insert(text, main),
        BtreeOp::Dedup => add_dedup(text, main),
        BtreeOp::Delete => add_delete(text, main),
        BtreeOp::Vacuum => add_vacuum(text, main),
        BtreeOp::NewRoot => add_new_root(text, main),
        BtreeOp::UnlinkPage | BtreeOp::UnlinkPageMeta | BtreeOp::MarkPageHalfDead => Ok(()),
        BtreeOp::ReusePage | BtreeOp::MetaCleanup => Ok(()),
        BtreeOp::Unlisted(_) => Ok(()),
    }
}

fn add_insert(text: &mut String, main: &[u8]) -> Result<(), AllocError>
    ensures { IfOk result (λ _. string_bytes text.new
        ≡ string_bytes text.old ++ or_short insert_text (btree_insert_of main.now)) }
{
    let Some(insert) = BtreeInsert::read(main) else {
        return add_short(text);
    };
    let off = insert.off;
    write!(text, "off: {off}")
}

fn add_split(text: &mut String, main: &[u8]) -> Result<(), AllocError>
    ensures { IfOk result (λ _. string_bytes text.new
        ≡ string_bytes text.old ++ or_short split_text (btree_split_of main.now)) }
{
    let Some(split) = BtreeSplit::read(main) else {
        return add_short(text);
    };
    let level = split.level;
    let first = split.first_right;
    let new = split.new_item;
    let posting = split.posting;
    write!(
        text,
        "level: {level}, firstrightoff: {first}, newitemoff: {new}, postingoff: {posting}"
    )
}

fn add_dedup(text: &mut String, main: &[u8]) -> Result<(), AllocError>
    ensures { IfOk result (λ _. string_bytes text.new
        ≡ string_bytes text.old ++ or_short dedup_text (btree_dedup_of main.now)) }
{
    let Some(dedup) = BtreeDedup::read(main) else {
        return add_short(text);
    };
    let intervals = dedup.nintervals;
    write!(text, "nintervals: {intervals}")
}

fn add_delete(text: &mut String, main: &[u8]) -> Result<(), AllocError>
    ensures { IfOk result (λ _. string_bytes text.new
        ≡ string_bytes text.old ++ or_short delete_text (btree_delete_of main.now)) }
{
    let Some(delete) = BtreeDelete::read(main) else {
        return add_short(text);
    };
    let horizon = delete.horizon;
    let deleted = delete.ndeleted;
    let updated = delete.nupdated;
    write!(
        text,
        "horizon: {horizon}, ndeleted: {deleted}, nupdated: {updated}"
    )
}

fn add_vacuum(text: &mut String, main: &[u8]) -> Result<(), AllocError>
    ensures { IfOk result (λ _. string_bytes text.new
        ≡ string_bytes text.old ++ or_short vacuum_text (btree_vacuum_of main.now)) }
{
    let Some(vacuum) = BtreeVacuum::read(main) else {
        return add_short(text);
    };
    let deleted = vacuum.ndeleted;
    let updated = vacuum.nupdated;
    write!(text, "ndeleted: {deleted}, nupdated: {updated}")
}

fn add_new_root(text: &mut String, main: &[u8]) -> Result<(), AllocError>
    ensures { IfOk result (λ _. string_bytes text.new
        ≡ string_bytes text.old ++ or_short new_root_text (btree_new_root_of main.now)) }
{
    let Some(root) = BtreeNewRoot::read(main) else {
        return add_short(text);
    };
    let level = root.level;
    write!(text, "level: {level}")
}
