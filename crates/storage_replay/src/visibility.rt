// Bits of the visibility map.
ghost use Rattle.std.specs.Prelude.{◌≡◌, ◌≢◌, ◌≤◌, ◌<◌, ◌*◌, ◌^◌, false, length, IsTrue, Err, IsErrOf};
ghost use Rattle.cluster_tree.specs.PathValue.{PathValue, Holds};
ghost use Rattle.cluster_tree.specs.Causes.{Rose};
ghost use Rattle.cluster_tree.specs.Frame.{Came};
ghost use Rattle.file_edits.specs.Answers.{Does};
ghost use Rattle.file_edits.specs.Edits.{file_edited, on_way};
ghost use Rattle.file_edits.specs.Own.{OnOwn};
ghost use Rattle.file_edits.specs.Sparing.{Piece, Spares};
ghost use Rattle.cluster_tree.specs.PathOrder.{path_eq};
ghost use Rattle.storage_replay.specs.Sparing.{is_of_fork};
ghost use Rattle.storage_replay.specs.Files.{AreFit, is_of_relation};
ghost use Rattle.storage_replay.specs.MapBits.{bits_edited, fill_pages, map_at, map_byte, map_cut, map_cut_in_page, map_edited, map_in_file, map_page, map_pair, new_byte, zeros_behind};

use crate::cutting::cut_fork;
use crate::files::Files;
use crate::lengths::{BLOCK, has_block};
use crate::map_edit::MapEdit;
use block_refs::{Fork, RelName};
use cluster_tree::{FileFault, Path, Tree};
use file_edits::{lay, read_or_zeros};
use relation_files::relation_file;
use std::alloc::Global;

// How many heap blocks have their bits on a page.
const PAGE_BLOCKS: u32 = 32672;

// How many bytes a page's header has.
const HEADER: u32 = 24;

// The page of a heap block.
fn map_page(block: u32) -> u32
    ensures { result ≡ map_page block }
{
    block / PAGE_BLOCKS
}

// The byte of a heap block in its page.
fn map_byte(block: u32) -> u32
    ensures value { result ≡ map_byte block }
    ensures within { result < 8192 }
{
    HEADER + block % PAGE_BLOCKS / 4
}

// Where that byte stands in its file.
fn map_at(per_file: u32, block: u32) -> u64
    requires some { 0 < per_file }
    ensures { result ≡ map_at per_file block }
{
    u64::from(map_page(block) % per_file) * BLOCK + u64::from(map_byte(block))
}

// The value of a pair's lower bit in its byte.
#[tactic(auto, using(crate::proofs::MapLemmas::pair_steps))]
fn pair_unit(pair: u32) -> u8
    requires { pair < 4 }
    ensures value { result ≡ 4 ^ pair }
    ensures some { 0 < result }
{
    if pair == 0 {
        1
    } else if pair == 1 {
        4
    } else if pair == 2 {
        16
    } else {
        64
    }
}

// Bits in the place of a pair.
#[tactic(auto, using(crate::proofs::MapLemmas::pair_steps))]
fn bits_at(pair: u32, bits: u8) -> u8
    requires pair { pair < 4 }
    requires bits { bits < 4 }
    ensures { result ≡ bits * 4 ^ pair }
{
    if pair == 0 {
        bits
    } else if pair == 1 {
        bits * 4
    } else if pair == 2 {
        bits * 16
    } else {
        bits * 64
    }
}

// What becomes of a heap block's byte.
fn new_byte(edit: MapEdit, block: u32, byte: u8) -> u8
    ensures { result ≡ new_byte edit block byte }
{
    let pair = block % 4;
    match edit {
        MapEdit::Clear(bits) => byte & (255 - bits_at(pair, bits % 4)),
        MapEdit::Cut => byte % pair_unit(pair),
    }
}

// How many bytes behind that become zeros.
fn zeros_behind(edit: MapEdit, block: u32) -> usize
    ensures value { result ≡ zeros_behind edit block }
    ensures within { result < 8192 }
{
    match edit {
        MapEdit::Clear(_) => 0,
        MapEdit::Cut => (8191 - map_byte(block)) as usize,
    }
}

// Edits a heap block's bits in a file of the map.
fn edit_bits<F: Tree>(
    alloc: Global,
    tree: &mut F,
    root: &Path,
    path: &Path,
    per_file: u32,
    block: u32,
    edit: MapEdit,
) -> Result<(), FileFault>
    requires held { Holds root.now path.now }
    requires deeper { length root.now.parts < length path.now.parts }
    requires some { 0 < per_file }
    ensures exact { IsTrue F.tells →
        Does (file_edited root.now path.now (bits_edited per_file block edit) (F.contents tree.old))
        (F.contents tree.new) result }
    ensures frame { Came F.Tree tree.old tree.new }
    ensures own { IsTrue F.tells → OnOwn F.calls (on_way root.now path.now) tree.old tree.new }
    ensures spares { IsTrue F.tells → (piece : Piece) →
        path_eq piece.path path.now ≡ false →
        Spares F.Tree piece tree.old tree.new }
    ensures read_fault { IsErrOf result FileFault.ReadFault →
        Rose (F.failed_reads tree.old) (F.failed_reads tree.new) }
    ensures write_fault { IsErrOf result FileFault.WriteFault →
        Rose (F.failed_changes tree.old) (F.failed_changes tree.new) }
    ensures changed { IsTrue F.tells → (p : PathValue) → result ≢ Err (FileFault.Changed p) }
{
    let at = map_at(per_file, block);
    let mut byte = [0];
    read_or_zeros(alloc, tree, path, at, &mut byte)?;
    let mut bytes = [0; 8192];
    bytes[0] = new_byte(edit, block, byte[0]);
    let count = zeros_behind(edit, block) + 1;
    lay(alloc, tree, root, path, at, at, &bytes[..count])
}

// Edits a heap block's bits in the file of their page.
fn edit_in_file<F: Tree>(
    alloc: Global,
    tree: &mut F,
    at: &Files,
    rel: RelName,
    block: u32,
    edit: MapEdit,
) -> Result<(), FileFault>
    requires fit { AreFit at.now }
    ensures exact { IsTrue F.tells → Does (map_in_file at.now.root at.now.per_file rel block edit
        (F.contents tree.old)) (F.contents tree.new) result }
    ensures frame { Came F.Tree tree.old tree.new }
    ensures own { IsTrue F.tells →
        OnOwn F.calls (is_of_relation at.now.root rel) tree.old tree.new }
    ensures spares { IsTrue F.tells → (piece : Piece) →
        is_of_fork at.now.root rel (Fork.Visibility) piece.path ≡ false →
        Spares F.Tree piece tree.old tree.new }
    ensures read_fault { IsErrOf result FileFault.ReadFault →
        Rose (F.failed_reads tree.old) (F.failed_reads tree.new) }
    ensures write_fault { IsErrOf result FileFault.WriteFault →
        Rose (F.failed_changes tree.old) (F.failed_changes tree.new) }
    ensures changed { IsTrue F.tells → (p : PathValue) → result ≢ Err (FileFault.Changed p) }
{
    let file = map_page(block) / at.per_file;
    let path = relation_file(alloc, &at.root, rel, Fork::Visibility, file)?;
    edit_bits(alloc, tree, &at.root, &path, at.per_file, block, edit)
}

/// Edits a heap block's bits where the map has their page.
pub(crate) fn edit_map<F: Tree>(
    alloc: Global,
    tree: &mut F,
    at: &Files,
    rel: RelName,
    block: u32,
    edit: MapEdit,
) -> Result<(), FileFault>
    requires fit { AreFit at.now }
    ensures exact { IsTrue F.tells → Does (map_edited at.now.root at.now.per_file rel block edit
        (F.contents tree.old)) (F.contents tree.new) result }
    ensures frame { Came F.Tree tree.old tree.new }
    ensures own { IsTrue F.tells →
        OnOwn F.calls (is_of_relation at.now.root rel) tree.old tree.new }
    ensures spares { IsTrue F.tells → (piece : Piece) →
        is_of_fork at.now.root rel (Fork.Visibility) piece.path ≡ false →
        Spares F.Tree piece tree.old tree.new }
    ensures read_fault { IsErrOf result FileFault.ReadFault →
        Rose (F.failed_reads tree.old) (F.failed_reads tree.new) }
    ensures write_fault { IsErrOf result FileFault.WriteFault →
        Rose (F.failed_changes tree.old) (F.failed_changes tree.new) }
    ensures changed { IsTrue F.tells → (p : PathValue) → result ≢ Err (FileFault.Changed p) }
{
    let page = map_page(block);
    if has_block(alloc, tree, at, rel, Fork::Visibility, page)? {
        edit_in_file(alloc, tree, at, rel, block, edit)
    } else {
        Ok(())
    }
}

/// Clears bits of a heap block in the relation's visibility map: 1 all visible, 2 all frozen. Nothing
/// is changed where the map hasn't the page of the block's bits, by its length. No LSN is set.
///
/// Answers `IsFolder` or `Link` with the first of the map's files, up to that page's, that is
/// something else.
pub fn map_bits<F: Tree>(
    alloc: Global,
    tree: &mut F,
    at: &Files,
    rel: RelName,
    block: u32,
    clear: u8,
) -> Result<(), FileFault>
    requires fit { AreFit at.now }
    requires bits { clear < 4 }
    ensures exact { IsTrue F.tells → Does (map_edited at.now.root at.now.per_file rel block
        (MapEdit.Clear clear) (F.contents tree.old)) (F.contents tree.new) result }
    ensures frame { Came F.Tree tree.old tree.new }
    ensures own { IsTrue F.tells →
        OnOwn F.calls (is_of_relation at.now.root rel) tree.old tree.new }
    ensures spares { IsTrue F.tells → (piece : Piece) →
        is_of_fork at.now.root rel (Fork.Visibility) piece.path ≡ false →
        Spares F.Tree piece tree.old tree.new }
    ensures read_fault { IsErrOf result FileFault.ReadFault →
        Rose (F.failed_reads tree.old) (F.failed_reads tree.new) }
    ensures write_fault { IsErrOf result FileFault.WriteFault →
        Rose (F.failed_changes tree.old) (F.failed_changes tree.new) }
    ensures changed { IsTrue F.tells → (p : PathValue) → result ≢ Err (FileFault.Changed p) }
{
    edit_map(alloc, tree, at, rel, block, MapEdit::Clear(clear))
}

// Whether so many heap blocks fill whole pages of the map.
fn fill_pages(blocks: u32) -> bool
    ensures { result ≡ fill_pages blocks }
{
    blocks % PAGE_BLOCKS == 0
}

// Cuts the map behind a page that is left in part, of which it clears the bits at and past the cut.
fn cut_in_page<F: Tree>(
    alloc: Global,
    tree: &mut F,
    at: &Files,
    rel: RelName,
    blocks: u32,
) -> Result<(), FileFault>
    requires fit { AreFit at.now }
    ensures exact { IsTrue F.tells → Does (map_cut_in_page at.now.root at.now.per_file rel blocks
        (F.contents tree.old)) (F.contents tree.new) result }
    ensures frame { Came F.Tree tree.old tree.new }
    ensures own { IsTrue F.tells →
        OnOwn F.calls (is_of_relation at.now.root rel) tree.old tree.new }
    ensures spares { IsTrue F.tells → (piece : Piece) →
        is_of_fork at.now.root rel (Fork.Visibility) piece.path ≡ false →
        Spares F.Tree piece tree.old tree.new }
    ensures read_fault { IsErrOf result FileFault.ReadFault →
        Rose (F.failed_reads tree.old) (F.failed_reads tree.new) }
    ensures write_fault { IsErrOf result FileFault.WriteFault →
        Rose (F.failed_changes tree.old) (F.failed_changes tree.new) }
    ensures changed { IsTrue F.tells → (p : PathValue) → result ≢ Err (FileFault.Changed p) }
{
    edit_map(alloc, tree, at, rel, blocks, MapEdit::Cut)?;
    let pages = map_page(blocks) + 1;
    cut_fork(alloc, tree, at, rel, Fork::Visibility, pages)
}

/// Cuts the map of a relation that is cut to so many blocks: a page that is left in part loses the
/// bits at and past the cut.
pub(crate) fn cut_map<F: Tree>(
    alloc: Global,
    tree: &mut F,
    at: &Files,
    rel: RelName,
    blocks: u32,
) -> Result<(), FileFault>
    requires fit { AreFit at.now }
    ensures exact { IsTrue F.tells → Does (map_cut at.now.root at.now.per_file rel blocks
        (F.contents tree.old)) (F.contents tree.new) result }
    ensures frame { Came F.Tree tree.old tree.new }
    ensures own { IsTrue F.tells →
        OnOwn F.calls (is_of_relation at.now.root rel) tree.old tree.new }
    ensures spares { IsTrue F.tells → (piece : Piece) →
        is_of_fork at.now.root rel (Fork.Visibility) piece.path ≡ false →
        Spares F.Tree piece tree.old tree.new }
    ensures read_fault { IsErrOf result FileFault.ReadFault →
        Rose (F.failed_reads tree.old) (F.failed_reads tree.new) }
    ensures write_fault { IsErrOf result FileFault.WriteFault →
        Rose (F.failed_changes tree.old) (F.failed_changes tree.new) }
    ensures changed { IsTrue F.tells → (p : PathValue) → result ≢ Err (FileFault.Changed p) }
{
    let pages = map_page(blocks);
    if fill_pages(blocks) {
        cut_fork(alloc, tree, at, rel, Fork::Visibility, pages)
    } else {
        cut_in_page(alloc, tree, at, rel, blocks)
    }
}
