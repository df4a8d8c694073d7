// The forms of values in words.
ghost use Rattle.std.specs.Prelude.{◌≡◌, ◌==◌, ℕ, ◌<◌, ◌^◌, List, Option, Some, bytes_eq, option_map};
ghost use Rattle.std.specs.List.{after_first, before_first};
ghost use Rattle.std.specs.Path.{rsplit_once};
ghost use Rattle.wal_base.specs.Decimal.{decimal_number};
ghost use Rattle.wal_base.specs.Lsn.{lsn_of};
ghost use Rattle.block_refs.specs.Names.{fork_name};
ghost use Rattle.command_words.specs.Answers.{AnswersAs};
ghost use Rattle.tool_words.specs.Forms.{fork_of, given};
ghost use Rattle.tool_words.specs.Forms.{folder_of, last_part_of, relation_of, segment_name, segment_word};

use crate::waldump::SegmentWord;
use block_refs::{Fork, RelName};
use command_words::{Found, WordsFault};
use std::alloc::Global;
use wal_base::{Lsn, Text, decimal_u32, is_long_name};

/// A value that is written in a form of its own.
pub(crate) trait Form: Copy {
    // What a text stands for in this form.
    ghost form: { List ℕ → Option Self };

    /// What the text stands for, or `None` where it isn't of the form.
    fn parse(text: &str) -> Option<Self>
        ensures { result ≡ form text.now };
}

/// The value of an option, which may be left out. Answers `Usage` where it isn't of its form.
pub(crate) fn optional<T: Form>(found: &Found<'_>, id: &str) -> Result<Option<T>, WordsFault>
    ensures { AnswersAs (given T.form id.now found.now) result }
{
    match found.value(id) {
        None => Ok(None),
        Some(text) => match T::parse(text) {
            None => Err(WordsFault::Usage),
            Some(value) => Ok(Some(value)),
        },
    }
}

fn number(text: &str) -> Option<u32>
    ensures { result ≡ decimal_number (2 ^ 32) text.now }
{
    decimal_u32(text.as_bytes())
}

impl Form for u32 {
    ghost form = { decimal_number (2 ^ 32) };

    fn parse(text: &str) -> Option<u32> {
        number(text)
    }
}

impl Form for Lsn {
    ghost form = { lsn_of };

    fn parse(text: &str) -> Option<Lsn> {
        Lsn::parse(text)
    }
}

/// A text before and behind the first place of an ASCII character.
pub(crate) fn cut(text: &str, mark: char) -> (&str, &str)
    requires { mark < 128 }
    ensures before { result.0.now ≡ before_first (λ byte. byte == mark) text.now }
    ensures after { result.1.now ≡ after_first (λ byte. byte == mark) text.now }
{
    match text.split_once(mark) {
        Some(parts) => parts,
        None => (text, ""),
    }
}

#[tactic(auto, unfolding(crate::specs::Forms::relation_of))]
fn relation(text: &str) -> Option<RelName>
    ensures { result ≡ relation_of text.now }
{
    let (space, rest) = cut(text, '/');
    let (database, relation) = cut(rest, '/');
    let space = number(space)?;
    let database = number(database)?;
    let relation = number(relation)?;
    Some(RelName {
        space,
        database,
        relation,
    })
}

impl Form for RelName {
    ghost form = { relation_of };

    fn parse(text: &str) -> Option<RelName> {
        relation(text)
    }
}

fn is_named(fork: Fork, name: &str) -> bool
    ensures { result ≡ bytes_eq name.now (fork_name fork) }
{
    name == fork.name()
}

#[tactic(auto, unfolding(crate::specs::Forms::fork_of))]
fn fork(name: &str) -> Option<Fork>
    ensures { result ≡ fork_of name.now }
{
    if is_named(Fork::Main, name) {
        Some(Fork::Main)
    } else if is_named(Fork::FreeSpace, name) {
        Some(Fork::FreeSpace)
    } else if is_named(Fork::Visibility, name) {
        Some(Fork::Visibility)
    } else if is_named(Fork::Init, name) {
        Some(Fork::Init)
    } else {
        None
    }
}

impl Form for Fork {
    ghost form = { fork_of };

    fn parse(text: &str) -> Option<Fork> {
        fork(text)
    }
}

// A text before and behind its last slash.
fn last_slash(text: &str) -> Option<(&str, &str)>
    ensures { option_map (λ x. (x.0.now, x.1.now)) result ≡ rsplit_once 47 text.now }
{
    text.rsplit_once('/')
}

fn last_part(text: &str) -> &str
    ensures { result.now ≡ last_part_of text.now }
{
    match last_slash(text) {
        Some((_, name)) => name,
        None => text,
    }
}

fn folder(alloc: Global, text: &str) -> Result<Text, WordsFault>
    ensures { AnswersAs (Some (folder_of text.now)) result }
{
    match last_slash(text) {
        Some((front, _)) => Ok(Text::from(format!(in alloc; "{front}/")?)),
        None => Ok(Text::from(String::new(alloc))),
    }
}

/// The name of a segment's file at the end of a path. Answers `Usage` where the last part isn't 24
/// digits 0 to 9 and A to F.
pub(crate) fn segment_name(alloc: Global, text: &str) -> Result<Text, WordsFault>
    ensures { AnswersAs (segment_name text.now) result }
{
    let name = last_part(text);
    if !is_long_name(name.as_bytes()) {
        return Err(WordsFault::Usage);
    }
    match Text::new(alloc, name) {
        Ok(name) => Ok(name),
        Err(_) => Err(WordsFault::OutOfMemory),
    }
}

/// The file of a segment, with its folder. Answers `Usage` where its name isn't 24 digits 0 to 9 and
/// A to F.
pub(crate) fn segment_word(alloc: Global, text: &str) -> Result<SegmentWord, WordsFault>
    ensures { AnswersAs (segment_word text.now) result }
{
    let name = segment_name(alloc, text)?;
    let folder = folder(alloc, text)?;
    Ok(SegmentWord { folder, name })
}
