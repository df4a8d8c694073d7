// The words of pg_walreplay.
ghost use Rattle.std.specs.Prelude.{◌≡◌, map, string_bytes};
ghost use Rattle.command_words.specs.Table.{rules_of};
ghost use Rattle.command_words.specs.Answers.{AnswersAs};
ghost use Rattle.tool_words.specs.Walreplay.{walreplay_of, walreplay_table};

use crate::root::root;
use command_words::{Entry, WordsFault, find};
use std::alloc::Global;
use wal_base::Text;

/// What `pg_walreplay` is asked to do, in texts.
#[derive(Drop)]
pub(crate) struct WalreplayTexts {
    /// The root of the cluster whose log is replayed.
    pub(crate) root: Text,
    /// Whether the replay is one that can be started again after a stop.
    pub(crate) restart: bool,
}

#[tactic(auto, unfolding(crate::specs::Walreplay::walreplay_table))]
fn table() -> [Entry; 2]
    ensures { rules_of result ≡ walreplay_table }
{
    [
        Entry::flag("restart", None, Some("restart")),
        Entry::word("DIR"),
    ]
}

/// What `pg_walreplay` is asked to do. The first word is the command's name.
///
/// Answers `Usage` where the words are not in its grammar, where no root is given, and where it is
/// empty.
#[tactic(auto, using(crate::proofs::TableLemmas::walreplay_is_simple))]
pub(crate) fn walreplay_words(alloc: Global, words: &[String]) -> Result<WalreplayTexts, WordsFault>
    ensures exact { AnswersAs (walreplay_of (map string_bytes words.now)) result }
{
    let table = table();
    let found = find(alloc, &table, words)?;
    match found.value("DIR") {
        Some(text) => {
            let root = root(alloc, text)?;
            let restart = found.flag("restart");
            Ok(WalreplayTexts { root, restart })
        }
        None => Err(WordsFault::Usage),
    }
}
