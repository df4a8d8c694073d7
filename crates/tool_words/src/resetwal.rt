// The words of pg_resetwal.
ghost use Rattle.std.specs.Prelude.{◌≡◌, if◌then◌else◌, map, string_bytes, None, Some};
ghost use Rattle.command_words.specs.Table.{is_on, rules_of};
ghost use Rattle.command_words.specs.Answers.{AnswersAs};
ghost use Rattle.tool_words.specs.Resetwal.{options_in, resetwal_of, resetwal_table};

use crate::forms::optional;
use crate::numbers::number_given;
use crate::root::root_given;
use command_words::{Entry, Found, WordsFault, find};
use reset_numbers::{ResetOptions, is_fit};
use std::alloc::Global;
use wal_base::Text;

/// What `pg_resetwal` is asked to do, with its root as a text.
#[derive(Drop)]
pub(crate) struct ResetwalTexts {
    /// The root of the cluster.
    pub(crate) root: Text,
    /// The options, which are fit.
    pub(crate) options: ResetOptions,
}

#[tactic(auto, unfolding(crate::specs::Resetwal::resetwal_table))]
fn table() -> [Entry; 13]
    ensures { rules_of result ≡ resetwal_table }
{
    [
        Entry::option("commit-ts", Some('c'), None),
        Entry::option("epoch", Some('e'), None),
        Entry::flag("force", Some('f'), None),
        Entry::option("log", Some('l'), None),
        Entry::option("multi", Some('m'), None),
        Entry::flag("dry-run", Some('n'), None),
        Entry::option("oid", Some('o'), None),
        Entry::option("multi-offset", Some('O'), None),
        Entry::option("oldest-xid", Some('u'), None),
        Entry::option("xid", Some('x'), None),
        Entry::option("segment-size", None, Some("wal-segsize")),
        Entry::option("pgdata", Some('D'), None),
        Entry::word("DIR"),
    ]
}

fn flag_given(found: &Found<'_>, id: &str) -> Option<()>
    ensures { result ≡ (if is_on id.now found.now then Some tt else None) }
{
    if found.flag(id) { Some(()) } else { None }
}

// The options that were given, where each value is of its form.
#[tactic(auto, unfolding(crate::specs::Resetwal::options_in))]
fn options_given(found: &Found<'_>) -> Result<ResetOptions, WordsFault>
    ensures { AnswersAs (options_in found.now) result }
{
    let commit_ts = optional(found, "commit-ts")?;
    let epoch = number_given(found, "epoch")?;
    let log = optional(found, "log")?;
    let multi = optional(found, "multi")?;
    let oid = number_given(found, "oid")?;
    let multi_offset = number_given(found, "multi-offset")?;
    let oldest_xid = number_given(found, "oldest-xid")?;
    let xid = number_given(found, "xid")?;
    let segment_mb = optional(found, "segment-size")?;
    Ok(ResetOptions {
        commit_ts,
        epoch,
        force: flag_given(found, "force"),
        log,
        multi,
        dry: flag_given(found, "dry-run"),
        oid,
        multi_offset,
        oldest_xid,
        xid,
        segment_mb,
    })
}

/// What `pg_resetwal` is asked to do. The first word is the command's name.
///
/// Answers `Usage` where the words are not in its grammar or a value isn't of its form, where the
/// options aren't fit, where not exactly one of option and word is given, and where the root is empty.
#[tactic(auto, using(crate::proofs::TableLemmas::resetwal_is_simple))]
pub(crate) fn resetwal_words(alloc: Global, words: &[String]) -> Result<ResetwalTexts, WordsFault>
    ensures exact { AnswersAs (resetwal_of (map string_bytes words.now)) result }
{
    let table = table();
    let found = find(alloc, &table, words)?;
    let options = options_given(&found)?;
    if !is_fit(&options) {
        return Err(WordsFault::Usage);
    }
    let root = root_given(alloc, &found)?;
    Ok(ResetwalTexts { root, options })
}
