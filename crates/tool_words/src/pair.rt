// The words of pair.
ghost use Rattle.std.specs.Prelude.{◌≡◌, ◌≤◌, IfOk, IfSome, map, option_and_then, option_map, string_bytes};
ghost use Rattle.command_words.specs.Table.{rules_of};
ghost use Rattle.command_words.specs.Answers.{AnswersAs};
ghost use Rattle.tool_words.specs.Pair.{blocks_of, pair_texts_of, pair_table, seed_of};

use crate::root::root;
use command_words::{Entry, WordsFault, find};
use std::alloc::Global;
use wal_base::{Text, decimal_u32, decimal_u64};

/// What `pair` is asked to do, in texts and numbers.
#[derive(Drop)]
pub(crate) struct PairTexts {
    /// The number that the pair is made from.
    pub(crate) seed: u64,
    /// How many blocks its relation has, from 1 to 4096.
    pub(crate) blocks: u32,
    /// The folder in which it is made.
    pub(crate) root: Text,
}

#[tactic(auto, unfolding(crate::specs::Pair::pair_table))]
fn table() -> [Entry; 3]
    ensures { rules_of result ≡ pair_table }
{
    [
        Entry::word("SEED"),
        Entry::word("BLOCKS"),
        Entry::word("DIR"),
    ]
}

// The number that a pair is made from.
fn seed(given: Option<&str>) -> Option<u64>
    ensures { result ≡ option_and_then seed_of (option_map (λ s. s.now) given.entry) }
{
    decimal_u64(given?.as_bytes())
}

// How many blocks its relation has.
fn blocks(given: Option<&str>) -> Option<u32>
    ensures value { result ≡ option_and_then blocks_of (option_map (λ s. s.now) given.entry) }
    ensures few { IfSome result (λ number. number ≤ 4096) }
{
    let number = decimal_u32(given?.as_bytes())?;
    if number > 0 && number < 4097 {
        Some(number)
    } else {
        None
    }
}

/// What `pair` is asked to do. The first word is the command's name.
///
/// Answers `Usage` where the words are not in its grammar, where one of the three is not given, where
/// SEED is no decimal number below 2^64 or BLOCKS none from 1 to 4096, and where DIR is empty.
#[tactic(auto, using(crate::proofs::TableLemmas::pair_is_simple))]
pub(crate) fn pair_words(alloc: Global, words: &[String]) -> Result<PairTexts, WordsFault>
    ensures exact { AnswersAs (pair_texts_of (map string_bytes words.now)) result }
    ensures few { IfOk result (λ texts. texts.blocks ≤ 4096) }
{
    let table = table();
    let found = find(alloc, &table, words)?;
    let seed = seed(found.value("SEED"));
    let blocks = blocks(found.value("BLOCKS"));
    match (seed, blocks, found.value("DIR")) {
        (Some(seed), Some(blocks), Some(text)) => {
            let root = root(alloc, text)?;
            Ok(PairTexts { seed, blocks, root })
        }
        _ => Err(WordsFault::Usage),
    }
}
