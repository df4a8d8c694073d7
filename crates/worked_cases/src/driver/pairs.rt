// Pairs that are made from a number.
use case_lines::{LineFault, first_word, narrow};
use cluster_tree::{ChangeCall, FileFault, Path};
use memory_tree::{FailPlan, FailingTree, MemoryTree};
use pair_maker::make_pair;
use std::alloc::Global;

// What is left where a pair of a number is made in an empty tree, whose calls fail by a plan, and whether it was made. It has so
// many blocks, at most 4096.
#[tactic(auto, using(crate::proofs::RoomLemmas::has_room))]
fn made(alloc: Global, words: &str, plan: FailPlan) -> Result<(MemoryTree, bool), LineFault> {
    let (seed, blocks) = first_word(words);
    let (seed, blocks) = (narrow(seed)?, narrow::<u32>(blocks)?);
    let mut tree = FailingTree::new(MemoryTree::new(alloc), plan);
    let root = Path::parse(alloc, ".")?;
    match make_pair(alloc, &mut tree, &root, seed, blocks.min(4096)) {
        Ok(_) => Ok((tree.into_inner(), true)),
        Err(FileFault::WriteFault) => Ok((tree.into_inner(), false)),
        Err(_) => Err(LineFault::NoPair),
    }
}

/// `pair SEED BLOCKS`: the tree of a pair.
pub(crate) fn pair(alloc: Global, words: &str) -> Result<MemoryTree, LineFault> {
    match made(alloc, words, FailPlan::Never)? {
        (tree, true) => Ok(tree),
        (_, false) => Err(LineFault::NoPair),
    }
}

/// `broken_pairs SEED BLOCKS`: whether a pair isn't made where one of its calls fails, and makes no call behind that.
pub(crate) fn are_broken_off(alloc: Global, words: &str) -> Result<bool, LineFault> {
    let calls = pair(alloc, words)?.changes();
    for at in 0..calls {
        let call = (at as u64).saturating_add(1);
        let (left, is_made) = made(alloc, words, FailPlan::At(call))?;
        if is_made || left.changes() > at.saturating_add(1) {
            return Ok(false);
        }
    }
    let (_, is_made) = made(alloc, words, FailPlan::At((calls as u64).saturating_add(1)))?;
    Ok(is_made)
}

/// `writes MOST`: whether no write so far had more bytes.
pub(crate) fn writes_at_most(tree: &MemoryTree, most: &str) -> Result<bool, LineFault> {
    let most: u64 = narrow(most)?;
    for at in 0..tree.changes() {
        if let Some(ChangeCall::Write(_, _, count)) = tree.change(at) {
            if *count > most {
                return Ok(false);
            }
        }
    }
    Ok(true)
}
