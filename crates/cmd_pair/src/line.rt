// The line on a pair, made before the first change.
ghost use Rattle.std.specs.Prelude.{◌≡◌, ◌≤◌, IfOk, string_bytes};
ghost use Rattle.cmd_pair.specs.Pair.{line_of, pair_line};

use crate::counts::insert_count;
use pair_maker::Side;
use std::alloc::{AllocError, Global};

// A line of these numbers.
#[tactic(auto, unfolding(crate::specs::Pair::line_of))]
fn line_of(
    alloc: Global,
    seed: u64,
    blocks: u32,
    target: u32,
    source: u32,
    touched: u32,
) -> Result<String, AllocError>
    ensures { IfOk result (λ line.
        string_bytes line ≡ line_of seed blocks target source touched) }
{
    format!(in alloc;
        "pair: seed {seed}, blocks {blocks}, target inserts {target}, source inserts {source}, touched {touched}, no difference\n"
    )
}

/// The line on a pair of so many blocks.
pub(crate) fn pair_line(alloc: Global, seed: u64, blocks: u32) -> Result<String, AllocError>
    requires { blocks ≤ 4096 }
    ensures { IfOk result (λ line. string_bytes line ≡ pair_line seed blocks) }
{
    // the target's log touches the blocks of its inserts, and no others
    let target = insert_count(Side::Target, seed, blocks);
    let source = insert_count(Side::Source, seed, blocks);
    line_of(alloc, seed, blocks, target, source, target)
}
