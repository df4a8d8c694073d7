// The entries, made. None of these calls takes memory.
ghost use Rattle.std.specs.Prelude.{◌≡◌, ◌≢◌, ℕ, ◌-◌, ◌*◌, ◌<◌, ◌≤◌, [], ◌∷◌, Err, IsErrOf, drop, length, map, take};
ghost use Rattle.cluster_tree.specs.Causes.{Rose};
ghost use Rattle.cluster_tree.specs.Change.{MakesFile, Writes};
ghost use Rattle.cluster_tree.specs.Frame.{Came};
ghost use Rattle.marked_runs.specs.Carried.{Carries};
ghost use Rattle.marked_runs.specs.Performed.{Performs};
ghost use Rattle.marked_runs.specs.Runs.{writes_at};
ghost use Rattle.reset_plan.specs.Plan.{padded};
ghost use Rattle.pair_maker.specs.Blocks.{block_page};
ghost use Rattle.pair_maker.specs.Entries.{changes_at, changes_of, made_of, pages_from, standing_of};

use crate::blocks::put_block;
use crate::entries::{NewEntry, Placed};
use cluster_tree::{Path, Tree};
use marked_runs::{PerformFault, StepFault, about, fill_zeros, make_folder, overwrite, write_new};
use std::collections::VecDeque;

// The bytes of a piece.
const PIECE: usize = 65536;

// The bytes of a page.
const PAGE: usize = 8192;

// The bytes of a segment.
const SEGMENT: u64 = 0x10_0000;

// The first of some bytes, so many.
fn first(bytes: &[u8], size: usize) -> &[u8]
    requires { size ≤ length bytes.now }
    ensures { result.now ≡ take size bytes.now }
{
    &bytes[..size]
}

// The bytes between two places.
fn part(bytes: &[u8], from: usize, to: usize) -> &[u8]
    requires order { from ≤ to }
    requires room { to ≤ length bytes.now }
    ensures { result.now ≡ take (to - from) (drop from bytes.now) }
{
    &bytes[from..to]
}

// Where a piece ends that begins at a place before the end of some bytes.
fn piece_end(size: usize, from: usize) -> usize
    requires { from < size }
    ensures further { from < result }
    ensures within { result ≤ size }
{
    from + (size - from).min(PIECE)
}

// How many zeros stand behind so many bytes up to the end of a segment.
fn zeros_behind(size: u64) -> u64
    ensures { result ≡ 0x10_0000 - size }
{
    SEGMENT.saturating_sub(size)
}

// Writes the bytes of a file from a place on behind those that stand before it, by pieces.
fn write_rest<F: Tree>(
    tree: &mut F,
    path: &Path,
    bytes: &[u8],
    from: usize,
) -> Result<(), StepFault>
    requires { from ≤ length bytes.now }
    ensures carries { Carries F.Tree (writes_at path.now from (drop from bytes.now))
        tree.old tree.new result }
    ensures frame { Came F.Tree tree.old tree.new }
    ensures read_fault { result ≢ Err StepFault.ReadFault }
    ensures write_fault { IsErrOf result StepFault.WriteFault →
        Rose (F.failed_changes tree.old) (F.failed_changes tree.new) }
{
    let mut done = from;
    while done < bytes.len() {
        let next = piece_end(bytes.len(), done);
        match overwrite(tree, path, done as u64, part(bytes, done, next)) {
            Ok(()) => done = next,
            Err(e) => return Err(e),
        }
    }
    Ok(())
}

// Makes a file with these bytes. A write has at most 65536 bytes, and they are one range once joined.
fn put_bytes<F: Tree>(tree: &mut F, path: &Path, bytes: &[u8]) -> Result<(), StepFault>
    ensures carries { Carries F.Tree (MakesFile path.now ∷ Writes path.now 0 bytes.now ∷ [])
        tree.old tree.new result }
    ensures frame { Came F.Tree tree.old tree.new }
    ensures read_fault { result ≢ Err StepFault.ReadFault }
    ensures write_fault { IsErrOf result StepFault.WriteFault →
        Rose (F.failed_changes tree.old) (F.failed_changes tree.new) }
{
    let size = bytes.len().min(PIECE);
    match write_new(tree, path, first(bytes, size)) {
        Ok(()) => write_rest(tree, path, bytes, size),
        Err(e) => Err(e),
    }
}

// Makes the file of a segment with this log, and zeros up to its end.
fn put_log<F: Tree>(tree: &mut F, path: &Path, log: &[u8]) -> Result<(), StepFault>
    ensures carries { Carries F.Tree
        (MakesFile path.now ∷ Writes path.now 0 (padded log.now 0x10_0000) ∷ [])
        tree.old tree.new result }
    ensures frame { Came F.Tree tree.old tree.new }
    ensures read_fault { result ≢ Err StepFault.ReadFault }
    ensures write_fault { IsErrOf result StepFault.WriteFault →
        Rose (F.failed_changes tree.old) (F.failed_changes tree.new) }
{
    let size = log.len() as u64;
    match put_bytes(tree, path, log) {
        Ok(()) => fill_zeros(tree, path, size, zeros_behind(size)),
        Err(e) => Err(e),
    }
}

// Writes a block of a relation's file, behind those before it.
fn write_block<F: Tree>(
    tree: &mut F,
    path: &Path,
    seed: u64,
    block: u32,
    end: Option<u64>,
) -> Result<(), StepFault>
    ensures carries { Carries F.Tree
        (Writes path.now (8192 * block) (block_page seed block end) ∷ []) tree.old tree.new result }
    ensures size { length (block_page seed block end) ≡ 8192 }
    ensures frame { Came F.Tree tree.old tree.new }
    ensures read_fault { result ≢ Err StepFault.ReadFault }
    ensures write_fault { IsErrOf result StepFault.WriteFault →
        Rose (F.failed_changes tree.old) (F.failed_changes tree.new) }
{
    let mut page = [0; PAGE];
    put_block(&mut page, seed, block, end);
    overwrite(tree, path, 8192 * u64::from(block), &page)
}

// Writes the blocks of a relation's file behind the first one, one after another.
fn write_blocks<F: Tree>(
    tree: &mut F,
    path: &Path,
    seed: u64,
    ends: &[Option<u64>],
) -> Result<(), StepFault>
    requires some { 1 ≤ length ends.now }
    requires few { length ends.now ≤ 4096 }
    ensures carries { Carries F.Tree
        (writes_at path.now 8192 (pages_from seed 1 (drop 1 ends.now))) tree.old tree.new result }
    ensures frame { Came F.Tree tree.old tree.new }
    ensures read_fault { result ≢ Err StepFault.ReadFault }
    ensures write_fault { IsErrOf result StepFault.WriteFault →
        Rose (F.failed_changes tree.old) (F.failed_changes tree.new) }
{
    for block in 1..ends.len() {
        match write_block(tree, path, seed, block as u32, ends[block]) {
            Ok(()) => (),
            Err(e) => return Err(e),
        }
    }
    Ok(())
}

// Makes a relation's file with its first block.
fn put_first<F: Tree>(
    tree: &mut F,
    path: &Path,
    seed: u64,
    end: Option<u64>,
) -> Result<(), StepFault>
    ensures carries { Carries F.Tree
        (MakesFile path.now ∷ Writes path.now 0 (block_page seed 0 end) ∷ [])
        tree.old tree.new result }
    ensures size { length (block_page seed 0 end) ≡ 8192 }
    ensures frame { Came F.Tree tree.old tree.new }
    ensures read_fault { result ≢ Err StepFault.ReadFault }
    ensures write_fault { IsErrOf result StepFault.WriteFault →
        Rose (F.failed_changes tree.old) (F.failed_changes tree.new) }
{
    let mut page = [0; PAGE];
    put_block(&mut page, seed, 0, end);
    write_new(tree, path, &page)
}

// Makes a relation's file of these blocks.
fn put_relation<F: Tree>(
    tree: &mut F,
    path: &Path,
    seed: u64,
    ends: &[Option<u64>],
) -> Result<(), StepFault>
    requires { length ends.now ≤ 4096 }
    ensures carries { Carries F.Tree
        (MakesFile path.now ∷ Writes path.now 0 (pages_from seed 0 ends.now) ∷ [])
        tree.old tree.new result }
    ensures frame { Came F.Tree tree.old tree.new }
    ensures read_fault { result ≢ Err StepFault.ReadFault }
    ensures write_fault { IsErrOf result StepFault.WriteFault →
        Rose (F.failed_changes tree.old) (F.failed_changes tree.new) }
{
    if ends.is_empty() {
        return write_new(tree, path, &[]);
    }
    match put_first(tree, path, seed, ends[0]) {
        Ok(()) => write_blocks(tree, path, seed, ends),
        Err(e) => Err(e),
    }
}

// Makes an entry.
fn put_entry<F: Tree>(tree: &mut F, path: &Path, entry: &NewEntry) -> Result<(), StepFault>
    ensures carries { Carries F.Tree (changes_at path.now (made_of entry.now))
        tree.old tree.new result }
    ensures frame { Came F.Tree tree.old tree.new }
    ensures read_fault { result ≢ Err StepFault.ReadFault }
    ensures write_fault { IsErrOf result StepFault.WriteFault →
        Rose (F.failed_changes tree.old) (F.failed_changes tree.new) }
{
    match entry {
        NewEntry::Folder => make_folder(tree, path),
        NewEntry::File(bytes) => put_bytes(tree, path, bytes),
        NewEntry::Log(log) => put_log(tree, path, log.bytes()),
        NewEntry::Relation(relation) => put_relation(tree, path, relation.seed, &relation.ends),
    }
}

// Makes an entry at its path.
fn put_placed<F: Tree>(tree: &mut F, placed: Placed) -> Result<(), PerformFault>
    ensures performs { Performs F.Tree (changes_at placed.path (made_of placed.entry))
        tree.old tree.new result }
    ensures frame { Came F.Tree tree.old tree.new }
    ensures read_fault { result ≢ Err PerformFault.ReadFault }
    ensures write_fault { IsErrOf result PerformFault.WriteFault →
        Rose (F.failed_changes tree.old) (F.failed_changes tree.new) }
{
    let Placed { path, entry } = placed;
    match put_entry(tree, &path, &entry) {
        Ok(()) => Ok(()),
        Err(fault) => Err(about(fault, path)),
    }
}

/// Makes entries one after another. Answers `WriteFault` only where a change failed, and `Changed` never
/// where the tree tells and would refuse none of the changes.
pub(crate) fn put_all<F: Tree>(
    tree: &mut F,
    mut entries: VecDeque<Placed>,
) -> Result<(), PerformFault>
    ensures performs { Performs F.Tree (changes_of (map standing_of entries.items))
        tree.old tree.new result }
    ensures frame { Came F.Tree tree.old tree.new }
    ensures read_fault { result ≢ Err PerformFault.ReadFault }
    ensures write_fault { IsErrOf result PerformFault.WriteFault →
        Rose (F.failed_changes tree.old) (F.failed_changes tree.new) }
{
    while let Some(placed) = entries.pop_front() {
        match put_placed(tree, placed) {
            Ok(()) => (),
            Err(fault) => return Err(fault),
        }
    }
    Ok(())
}
