// The words of pg_archivecleanup.
ghost use Rattle.std.specs.Prelude.{◌≡◌, Some, map, option_map, string_bytes};
ghost use Rattle.command_words.specs.Table.{rules_of};
ghost use Rattle.command_words.specs.Answers.{AnswersAs};
ghost use Rattle.tool_words.specs.Archivecleanup.{archivecleanup_from, archivecleanup_of, archivecleanup_table};

use archive_names::is_kept_name;
use command_words::{Entry, WordsFault, find};
use std::alloc::Global;
use wal_base::Text;

/// What `pg_archivecleanup` is asked to do, in texts.
#[derive(Drop)]
pub(crate) struct ArchivecleanupTexts {
    /// The folder of the archive.
    pub(crate) folder: Text,
    /// The name of the first file that is kept, which has one of its forms.
    pub(crate) kept: Text,
    /// The extension that names may have at their end.
    pub(crate) extension: Option<Text>,
    /// Whether each removal is told.
    pub(crate) debug: bool,
    /// Whether the files are only named.
    pub(crate) dry_run: bool,
}

#[tactic(auto, unfolding(crate::specs::Archivecleanup::archivecleanup_table))]
fn table() -> [Entry; 5]
    ensures { rules_of result ≡ archivecleanup_table }
{
    [
        Entry::flag("debug", Some('d'), None),
        Entry::flag("dry-run", Some('n'), None),
        Entry::option("extension", Some('x'), None),
        Entry::word("LOCATION"),
        Entry::word("KEPT"),
    ]
}

fn text(alloc: Global, text: &str) -> Result<Text, WordsFault>
    ensures { AnswersAs (Some text.now) result }
{
    match Text::new(alloc, text) {
        Ok(text) => Ok(text),
        Err(_) => Err(WordsFault::OutOfMemory),
    }
}

fn optional_text(alloc: Global, given: Option<&str>) -> Result<Option<Text>, WordsFault>
    ensures { AnswersAs (Some (option_map (λ s. s.now) given.entry)) result }
{
    match given {
        None => Ok(None),
        Some(given) => Ok(Some(text(alloc, given)?)),
    }
}

// The texts that were given, where the name to keep has one of its forms.
fn texts(
    alloc: Global,
    folder: &str,
    kept: &str,
    extension: Option<&str>,
    debug: bool,
    dry_run: bool,
) -> Result<ArchivecleanupTexts, WordsFault>
    ensures { AnswersAs (archivecleanup_from (Some folder.now) (Some kept.now)
        (option_map (λ s. s.now) extension.entry) debug dry_run) result }
{
    if !is_kept_name(kept, extension) {
        return Err(WordsFault::Usage);
    }
    let folder = text(alloc, folder)?;
    let kept = text(alloc, kept)?;
    let extension = optional_text(alloc, extension)?;
    Ok(ArchivecleanupTexts {
        folder,
        kept,
        extension,
        debug,
        dry_run,
    })
}

/// What `pg_archivecleanup` is asked to do. The first word is the command's name.
///
/// Answers `Usage` where the words are not in its grammar, where one of the two words is not given,
/// and where the name to keep has none of its forms.
#[tactic(auto, using(crate::proofs::TableLemmas::archivecleanup_is_simple))]
pub(crate) fn archivecleanup_words(
    alloc: Global,
    words: &[String],
) -> Result<ArchivecleanupTexts, WordsFault>
    ensures exact { AnswersAs (archivecleanup_of (map string_bytes words.now)) result }
{
    let table = table();
    let found = find(alloc, &table, words)?;
    let debug = found.flag("debug");
    let dry_run = found.flag("dry-run");
    let extension = found.value("extension");
    match (found.value("LOCATION"), found.value("KEPT")) {
        (Some(folder), Some(kept)) => texts(alloc, folder, kept, extension, debug, dry_run),
        _ => Err(WordsFault::Usage),
    }
}
