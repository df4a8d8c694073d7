//! The references of a record: each names a block that replay knows, and no two the same.

ghost use Rattle.std.specs.Prelude.{◌≡◌, ◌+◌, ◌<◌, ◌&&◌, drop, not, slice_get, false};
ghost use Rattle.std.specs.Option.{option_map_or};
ghost use Rattle.replay_profile.specs.Names.{are_known, is_block, is_known_block, is_named};
ghost use Rattle.replay_profile.specs.Values.{passes};

use crate::names::{is_block, is_known_block};
use block_refs::{BlockName, Parts};

/// Whether the reference at a place names a block.
fn is_named_at(name: BlockName, parts: &Parts, at: usize) -> bool
    ensures { result ≡ option_map_or (λ placed. is_block name placed.block.name)
        (slice_get parts.now.blocks at) false }
{
    match parts.get(at) {
        Some(block) => is_block(name, block.name),
        None => false,
    }
}

/// Whether one of the references from a place on names a block.
fn is_named(name: BlockName, parts: &Parts, from: usize) -> bool
    ensures { result ≡ is_named name (drop from parts.now.blocks) }
{
    for at in from..parts.count() {
        if is_named_at(name, parts, at) {
            return true;
        }
    }
    false
}

/// Whether the reference at a place names a known block, and none behind it the same one.
fn is_known_at(parts: &Parts, at: usize) -> bool
    requires few { at < 33 }
    ensures { result ≡ passes (λ placed. is_known_block placed.block.name
        && not (is_named placed.block.name (drop (at + 1) parts.now.blocks)))
        (slice_get parts.now.blocks at) }
{
    match parts.get(at) {
        Some(block) => is_known_block(block.name) && !is_named(block.name, parts, at + 1),
        None => true,
    }
}

/// Whether each reference names a known block, and no block twice.
pub(crate) fn are_known(parts: &Parts) -> bool
    ensures { result ≡ are_known parts.now.blocks }
{
    for at in 0..parts.count() {
        if !is_known_at(parts, at) {
            return false;
        }
    }
    true
}
