//! Block references as lines show them.

ghost use Rattle.std.specs.Prelude.{◌≡◌, ◌++◌, IfOk, option_to_list, string_bytes};
ghost use Rattle.std.specs.List.{flat_map, slice_get};
ghost use Rattle.waldump_core.specs.Refs.{fork_mark, image_mark, image_text, image_word, long_ref, long_text, refs_text, short_ref, short_text};

use block_refs::{BlockName, BlockRef, Fork, ImageRef, Parts};
use std::alloc::AllocError;

/// What names a fork within a line.
fn fork_mark(fork: Fork) -> &'static str
    ensures { result.now ≡ fork_mark fork }
{
    match fork {
        Fork::Main => "",
        Fork::FreeSpace => " fork fsm",
        Fork::Visibility => " fork vm",
        Fork::Init => " fork init",
    }
}

/// What names an image within a line.
fn image_mark(image: Option<ImageRef>) -> &'static str
    ensures { result.now ≡ image_mark image }
{
    match image {
        None => "",
        Some(image) => {
            if image.apply {
                " FPW"
            } else {
                " FPW for WAL verification"
            }
        }
    }
}

fn image_word(image: ImageRef) -> &'static str
    ensures { result.now ≡ image_word image }
{
    if image.apply {
        " (FPW)"
    } else {
        " (FPW for WAL verification)"
    }
}

/// Adds a block reference within the line of its record.
#[tactic(auto, unfolding(crate::specs::Refs::short_ref))]
fn add_short_ref(text: &mut String, block: BlockRef) -> Result<(), AllocError>
    ensures { IfOk result (λ _. string_bytes text.new ≡ string_bytes text.old ++ short_ref block) }
{
    let id = block.id;
    let BlockName {
        rel,
        fork,
        block: number,
    } = block.name;
    let mark = fork_mark(fork);
    let image = image_mark(block.image);
    write!(text, ", blkref #{id}: rel {rel}{mark} blk {number}{image}")
}

/// Adds an image with its hole, if there is one.
fn add_image(text: &mut String, image: Option<ImageRef>) -> Result<(), AllocError>
    ensures { IfOk result (λ _. string_bytes text.new ≡ string_bytes text.old ++ image_text image) }
{
    let Some(image) = image else {
        return Ok(());
    };
    let word = image_word(image);
    let offset = image.hole_at;
    let length = image.hole;
    write!(text, "{word}; hole: offset: {offset}, length: {length}")
}

/// Adds a block reference in a line of its own.
#[tactic(auto, unfolding(crate::specs::Refs::long_ref))]
fn add_long_ref(text: &mut String, block: BlockRef) -> Result<(), AllocError>
    ensures { IfOk result (λ _. string_bytes text.new ≡ string_bytes text.old ++ long_ref block) }
{
    let id = block.id;
    let BlockName {
        rel,
        fork,
        block: number,
    } = block.name;
    let fork = fork.name();
    write!(text, "\tblkref #{id}: rel {rel} fork {fork} blk {number}")?;
    add_image(text, block.image)?;
    text.push_str("\n")
}

/// Adds the block reference at a place within the line, if there is one.
fn add_short_at(text: &mut String, parts: &Parts, at: usize) -> Result<(), AllocError>
    ensures { IfOk result (λ _. string_bytes text.new
        ≡ string_bytes text.old ++ flat_map short_text (option_to_list (slice_get parts.now.blocks at))) }
{
    match parts.get(at) {
        Some(block) => add_short_ref(text, block),
        None => Ok(()),
    }
}

/// Adds the block reference at a place in a line of its own, if there is one.
fn add_long_at(text: &mut String, parts: &Parts, at: usize) -> Result<(), AllocError>
    ensures { IfOk result (λ _. string_bytes text.new
        ≡ string_bytes text.old ++ flat_map long_text (option_to_list (slice_get parts.now.blocks at))) }
{
    match parts.get(at) {
        Some(block) => add_long_ref(text, block),
        None => Ok(()),
    }
}

/// Adds the block references within the line.
#[tactic(auto, using(crate::proofs::BlockLemmas::text_steps))]
fn add_short_refs(text: &mut String, parts: &Parts) -> Result<(), AllocError>
    ensures { IfOk result (λ _. string_bytes text.new
        ≡ string_bytes text.old ++ flat_map short_text parts.now.blocks) }
{
    for at in 0..parts.count() {
        add_short_at(text, parts, at)?;
    }
    Ok(())
}

/// Adds the block references, each in a line of its own.
#[tactic(auto, using(crate::proofs::BlockLemmas::text_steps))]
fn add_long_refs(text: &mut String, parts: &Parts) -> Result<(), AllocError>
    ensures { IfOk result (λ _. string_bytes text.new
        ≡ string_bytes text.old ++ flat_map long_text parts.now.blocks) }
{
    for at in 0..parts.count() {
        add_long_at(text, parts, at)?;
    }
    Ok(())
}

/// Adds the end of a record's line, with its block references in it, or with the details below it.
pub fn add_refs(text: &mut String, parts: &Parts, details: bool) -> Result<(), AllocError>
    ensures { IfOk result (λ _. string_bytes text.new
        ≡ string_bytes text.old ++ refs_text details parts.now.blocks) }
{
    if details {
        text.push_str("\n")?;
        return add_long_refs(text, parts);
    }
    add_short_refs(text, parts)?;
    text.push_str("\n")
}
