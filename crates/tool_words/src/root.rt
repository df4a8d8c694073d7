// The roots of clusters in words.
ghost use Rattle.std.specs.Prelude.{◌≡◌, option_map};
ghost use Rattle.command_words.specs.Answers.{AnswersAs};
ghost use Rattle.tool_words.specs.Roots.{exactly_one, one_root, root_of};

use command_words::{Found, WordsFault};
use std::alloc::Global;
use wal_base::Text;

/// A copy of the text of a root. Answers `Usage` where it is empty.
pub(crate) fn root(alloc: Global, text: &str) -> Result<Text, WordsFault>
    ensures { AnswersAs (root_of text.now) result }
{
    if text.is_empty() {
        return Err(WordsFault::Usage);
    }
    match Text::new(alloc, text) {
        Ok(root) => Ok(root),
        Err(_) => Err(WordsFault::OutOfMemory),
    }
}

// The one that is given, where it is one of the two alone.
fn one_of<'a>(option: Option<&'a str>, word: Option<&'a str>) -> Option<&'a str>
    ensures { option_map (λ s. s.now) result
        ≡ exactly_one (option_map (λ s. s.now) option.entry) (option_map (λ s. s.now) word.entry) }
{
    match (option, word) {
        (Some(text), None) => Some(text),
        (None, Some(text)) => Some(text),
        _ => None,
    }
}

/// The root of a cluster that is given by its option or as a word. Answers `Usage` where not exactly
/// one of the two is given, and where it is empty.
pub(crate) fn root_given(alloc: Global, found: &Found<'_>) -> Result<Text, WordsFault>
    ensures { AnswersAs (one_root found.now) result }
{
    match one_of(found.value("pgdata"), found.value("DIR")) {
        Some(text) => root(alloc, text),
        None => Err(WordsFault::Usage),
    }
}
