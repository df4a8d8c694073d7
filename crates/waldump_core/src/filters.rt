//! The filters of a dump.

ghost use Rattle.std.specs.Prelude.{◌≡◌, option_to_list};
ghost use Rattle.std.specs.List.{list_any, slice_get};
ghost use Rattle.waldump_core.specs.Selecting.{admits, admits_fork, admits_rel, has_image, is_same_rel, is_wanted, meets, meets_blocks, meets_images, wants_block};

use crate::selection::Selection;
use block_refs::{Fork, Parts, RelName};
use wal_records::Record;

/// Whether a filter admits a value.
fn admits(wanted: Option<u32>, value: u32) -> bool
    ensures { result ≡ admits wanted value }
{
    match wanted {
        None => true,
        Some(wanted) => wanted == value,
    }
}

/// Whether a filter admits a resource manager.
fn admits_manager(wanted: Option<u8>, manager: u8) -> bool
    ensures { result ≡ admits wanted manager }
{
    match wanted {
        None => true,
        Some(wanted) => wanted == manager,
    }
}

fn is_same_rel(a: RelName, b: RelName) -> bool
    ensures { result ≡ is_same_rel a b }
{
    a.space == b.space && a.database == b.database && a.relation == b.relation
}

/// Whether a filter admits a relation.
fn admits_rel(wanted: Option<RelName>, rel: RelName) -> bool
    ensures { result ≡ admits_rel wanted rel }
{
    match wanted {
        None => true,
        Some(wanted) => is_same_rel(wanted, rel),
    }
}

/// Whether a filter admits a fork.
fn admits_fork(wanted: Option<Fork>, fork: Fork) -> bool
    ensures { result ≡ admits_fork wanted fork }
{
    match wanted {
        None => true,
        Some(wanted) => wanted.number() == fork.number(),
    }
}

/// Whether the block reference at a place is wanted, if there is one.
fn is_wanted_at(sel: &Selection, parts: &Parts, at: usize) -> bool
    ensures { result ≡ list_any (is_wanted sel.now) (option_to_list (slice_get parts.now.blocks at)) }
{
    match parts.get(at) {
        Some(block) => {
            admits_rel(sel.rel, block.name.rel)
                && admits(sel.block, block.name.block)
                && admits_fork(sel.fork, block.name.fork)
        }
        None => false,
    }
}

/// Whether some block reference is wanted.
#[tactic(auto, using(crate::proofs::BlockLemmas::any_steps))]
fn has_wanted(sel: &Selection, parts: &Parts) -> bool
    ensures { result ≡ list_any (is_wanted sel.now) parts.now.blocks }
{
    for at in 0..parts.count() {
        if is_wanted_at(sel, parts, at) {
            return true;
        }
    }
    false
}

/// Whether the block reference at a place has an image, if there is one.
fn has_image_at(parts: &Parts, at: usize) -> bool
    ensures { result ≡ list_any has_image (option_to_list (slice_get parts.now.blocks at)) }
{
    match parts.get(at) {
        Some(block) => block.image.is_some(),
        None => false,
    }
}

/// Whether some block reference has an image.
#[tactic(auto, using(crate::proofs::BlockLemmas::any_steps))]
fn has_image(parts: &Parts) -> bool
    ensures { result ≡ list_any has_image parts.now.blocks }
{
    for at in 0..parts.count() {
        if has_image_at(parts, at) {
            return true;
        }
    }
    false
}

/// Whether a filter on block references is given.
fn wants_block(sel: &Selection) -> bool
    ensures { result ≡ wants_block sel.now }
{
    sel.rel.is_some() || sel.block.is_some() || sel.fork.is_some()
}

fn meets_images(sel: &Selection, parts: &Parts) -> bool
    ensures { result ≡ meets_images sel.now parts.now.blocks }
{
    !sel.images_only || has_image(parts)
}

fn meets_blocks(sel: &Selection, parts: &Parts) -> bool
    ensures { result ≡ meets_blocks sel.now parts.now.blocks }
{
    !wants_block(sel) || has_wanted(sel, parts)
}

/// Whether a record with these parts meets every filter that is given.
#[tactic(auto, unfolding(crate::specs::Selecting::meets))]
pub fn meets(sel: &Selection, rec: &Record, parts: &Parts) -> bool
    ensures { result ≡ meets sel.now rec.now parts.now }
{
    let header = rec.header();
    admits_manager(sel.manager, header.manager)
        && admits(sel.xid, header.xid)
        && meets_images(sel, parts)
        && meets_blocks(sel, parts)
}
