// The words of pg_walcompare.
ghost use Rattle.std.specs.Prelude.{◌≡◌, map, string_bytes};
ghost use Rattle.command_words.specs.Table.{rules_of};
ghost use Rattle.command_words.specs.Answers.{AnswersAs};
ghost use Rattle.tool_words.specs.Walcompare.{walcompare_of, walcompare_table};

use crate::root::root;
use command_words::{Entry, WordsFault, find};
use std::alloc::Global;
use wal_base::Text;

/// What `pg_walcompare` is asked to do, in texts.
#[derive(Drop)]
pub(crate) struct WalcompareTexts {
    /// The root of the first cluster.
    pub(crate) first: Text,
    /// The root of the cluster that it is compared with.
    pub(crate) second: Text,
}

#[tactic(auto, unfolding(crate::specs::Walcompare::walcompare_table))]
fn table() -> [Entry; 2]
    ensures { rules_of result ≡ walcompare_table }
{
    [Entry::word("A"), Entry::word("B")]
}

/// What `pg_walcompare` is asked to do. The first word is the command's name.
///
/// Answers `Usage` where the words are not in its grammar, and where one of the two roots is not
/// given or is empty.
#[tactic(auto, using(crate::proofs::TableLemmas::walcompare_is_simple))]
pub(crate) fn walcompare_words(
    alloc: Global,
    words: &[String],
) -> Result<WalcompareTexts, WordsFault>
    ensures exact { AnswersAs (walcompare_of (map string_bytes words.now)) result }
{
    let table = table();
    let found = find(alloc, &table, words)?;
    match (found.value("A"), found.value("B")) {
        (Some(first), Some(second)) => {
            let first = root(alloc, first)?;
            let second = root(alloc, second)?;
            Ok(WalcompareTexts { first, second })
        }
        _ => Err(WordsFault::Usage),
    }
}
