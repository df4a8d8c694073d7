// The words of pg_rewind.
ghost use Rattle.std.specs.Prelude.{◌≡◌, map, option_map, string_bytes};
ghost use Rattle.command_words.specs.Table.{rules_of};
ghost use Rattle.command_words.specs.Answers.{AnswersAs};
ghost use Rattle.tool_words.specs.Rewind.{rewind_of, rewind_table};

use crate::root::root;
use command_words::{Entry, WordsFault, find};
use std::alloc::Global;
use wal_base::Text;

/// What `pg_rewind` is asked to do, in texts.
#[derive(Drop)]
pub(crate) struct RewindTexts {
    /// The root of the cluster that is to be rewound.
    pub(crate) target: Text,
    /// The root of the cluster whose log it is to follow.
    pub(crate) source: Text,
    /// Whether nothing is to be written.
    pub(crate) dry_run: bool,
    /// Whether a rewind that was broken off is to be gone on with.
    pub(crate) resume: bool,
}

#[tactic(auto, unfolding(crate::specs::Rewind::rewind_table))]
fn table() -> [Entry; 4]
    ensures { rules_of result ≡ rewind_table }
{
    [
        Entry::option("target", Some('D'), Some("target-pgdata")),
        Entry::option("source", None, Some("source-pgdata")),
        Entry::flag("dry-run", Some('n'), Some("dry-run")),
        Entry::flag("resume", None, Some("resume")),
    ]
}

/// What `pg_rewind` is asked to do. The first word is the command's name.
///
/// Answers `Usage` where the words are not in its grammar, and where one of the two roots is not
/// given or is empty.
#[tactic(auto, using(crate::proofs::TableLemmas::rewind_is_simple))]
pub(crate) fn rewind_words(alloc: Global, words: &[String]) -> Result<RewindTexts, WordsFault>
    ensures exact { AnswersAs (rewind_of (map string_bytes words.now)) result }
{
    let table = table();
    let found = find(alloc, &table, words)?;
    match (found.value("target"), found.value("source")) {
        (Some(target), Some(source)) => {
            let target = root(alloc, target)?;
            let source = root(alloc, source)?;
            let dry_run = found.flag("dry-run");
            let resume = found.flag("resume");
            Ok(RewindTexts {
                target,
                source,
                dry_run,
                resume,
            })
        }
        _ => Err(WordsFault::Usage),
    }
}
