// The words of pg_controldata.
ghost use Rattle.std.specs.Prelude.{◌≡◌, map, string_bytes};
ghost use Rattle.command_words.specs.Table.{rules_of};
ghost use Rattle.command_words.specs.Answers.{AnswersAs};
ghost use Rattle.tool_words.specs.Controldata.{controldata_of, controldata_table};

use crate::root::root_given;
use command_words::{Entry, WordsFault, find};
use std::alloc::Global;
use wal_base::Text;

#[tactic(auto, unfolding(crate::specs::Controldata::controldata_table))]
fn table() -> [Entry; 2]
    ensures { rules_of result ≡ controldata_table }
{
    [
        Entry::option("pgdata", Some('D'), Some("pgdata")),
        Entry::word("DIR"),
    ]
}

/// The root of the cluster whose control file `pg_controldata` is to show. The first word is the
/// command's name.
///
/// Answers `Usage` where the words are not in its grammar, where not exactly one of option and word
/// is given, and where the root is empty.
#[tactic(auto, using(crate::proofs::TableLemmas::controldata_is_simple))]
pub(crate) fn controldata_words(alloc: Global, words: &[String]) -> Result<Text, WordsFault>
    ensures exact { AnswersAs (controldata_of (map string_bytes words.now)) result }
{
    let table = table();
    let found = find(alloc, &table, words)?;
    root_given(alloc, &found)
}
