// How many tuples each cluster of a pair has of its own.
ghost use Rattle.std.specs.Prelude.{◌≡◌, length};
ghost use Rattle.pair_maker.specs.Inserts.{insert_blocks, inserts_into};

use pair_maker::Side;

// Whether a cluster has a tuple of its own in a block.
fn inserts_into(side: Side, seed: u64, block: u32) -> bool
    ensures { result ≡ inserts_into side seed block }
{
    match side {
        Side::Target => (7 * u128::from(block) + u128::from(seed)) % 5 == 0,
        Side::Source => (11 * u128::from(block) + u128::from(seed)) % 3 == 0,
    }
}

/// In how many of the first so many blocks a cluster has a tuple of its own.
#[tactic(auto, using(crate::proofs::CountLemmas::count_steps))]
pub(crate) fn insert_count(side: Side, seed: u64, blocks: u32) -> u32
    ensures { result ≡ length (insert_blocks side seed blocks) }
{
    let mut count = 0;
    for block in 0..blocks {
        if inserts_into(side, seed, block) {
            count += 1;
        }
    }
    count
}
