// The words of pg_waldump.
ghost use Rattle.std.specs.Prelude.{◌≡◌, codes, map, string_bytes};
ghost use Rattle.command_words.specs.Table.{rules_of};
ghost use Rattle.command_words.specs.Answers.{AnswersAs};
ghost use Rattle.rmgr_desc.specs.Naming.{manager_named};
ghost use Rattle.tool_words.specs.Forms.{given, segment_name, segment_word};
ghost use Rattle.tool_words.specs.Roots.{root_of};
ghost use Rattle.tool_words.specs.Waldump.{dump_in, filters_in, is_list, manager_in, waldump_of, waldump_table};

use crate::forms::{optional, segment_name, segment_word};
use crate::root::root;
use command_words::{Entry, Found, WordsFault, find};
use commands::Filters;
use rmgr_desc::manager_named;
use std::alloc::Global;
use wal_base::{Lsn, Text};

/// What `pg_waldump` is asked to do, in texts.
#[derive(Drop)]
pub(crate) enum WaldumpTexts {
    /// To print the names of the resource managers (`-r list`).
    Managers,
    /// To dump a log.
    Dump(DumpTexts),
}

/// What a dump of a log is asked for, in texts.
#[derive(Drop)]
pub(crate) struct DumpTexts {
    /// The folder that holds the log, or a cluster (`-p`).
    pub(crate) path: Option<Text>,
    /// The segment that the dump begins with (STARTSEG).
    pub(crate) first: Option<SegmentWord>,
    /// The name of the segment that the dump ends with, the last part of ENDSEG: 24 digits 0 to 9 and
    /// A to F.
    pub(crate) last: Option<Text>,
    /// The position where the dump begins (`-s`).
    pub(crate) start: Option<Lsn>,
    /// The position where it ends (`-e`).
    pub(crate) stop: Option<Lsn>,
    /// The timeline of the log (`-t`).
    pub(crate) timeline: Option<u32>,
    /// Which records are shown, and how.
    pub(crate) filters: Filters,
}

/// The file of a segment.
#[derive(Drop)]
pub(crate) struct SegmentWord {
    /// What the word has up to and with its last `/`; empty where it has none.
    pub(crate) folder: Text,
    /// The name behind that: 24 digits 0 to 9 and A to F.
    pub(crate) name: Text,
}

#[tactic(auto, unfolding(crate::specs::Waldump::waldump_table))]
fn table() -> [Entry; 15]
    ensures { rules_of result ≡ waldump_table }
{
    [
        Entry::flag("bkp-details", Some('b'), Some("bkp-details")),
        Entry::flag("quiet", Some('q'), Some("quiet")),
        Entry::flag("fullpage", Some('w'), Some("fullpage")),
        Entry::option("block", Some('B'), Some("block")),
        Entry::option("end", Some('e'), Some("end")),
        Entry::option("fork", Some('F'), Some("fork")),
        Entry::option("limit", Some('n'), Some("limit")),
        Entry::option("path", Some('p'), Some("path")),
        Entry::option("rmgr", Some('r'), Some("rmgr")),
        Entry::option("relation", Some('R'), Some("relation")),
        Entry::option("start", Some('s'), Some("start")),
        Entry::option("timeline", Some('t'), Some("timeline")),
        Entry::option("xid", Some('x'), Some("xid")),
        Entry::word("STARTSEG"),
        Entry::word("ENDSEG"),
    ]
}

// Whether the names of the managers are asked for.
fn is_list(found: &Found<'_>) -> bool
    ensures { result ≡ is_list found.now }
{
    match found.value("rmgr") {
        Some(name) => name.eq_ignore_ascii_case("list"),
        None => false,
    }
}

fn manager_given(found: &Found<'_>) -> Result<Option<u8>, WordsFault>
    ensures { AnswersAs (manager_in found.now) result }
{
    if is_list(found) {
        return Ok(None);
    }
    match found.value("rmgr") {
        None => Ok(None),
        Some(name) => match manager_named(name) {
            None => Err(WordsFault::Usage),
            Some(manager) => Ok(Some(manager)),
        },
    }
}

#[tactic(auto, unfolding(crate::specs::Waldump::filters_in))]
fn filters_given(found: &Found<'_>) -> Result<Filters, WordsFault>
    ensures { AnswersAs (filters_in found.now) result }
{
    let limit: Option<u32> = optional(found, "limit")?;
    let manager = manager_given(found)?;
    let rel = optional(found, "relation")?;
    let block = optional(found, "block")?;
    let fork = optional(found, "fork")?;
    let xid = optional(found, "xid")?;
    if block.is_some() && rel.is_none() {
        return Err(WordsFault::Usage);
    }
    Ok(Filters {
        limit: u64::from(limit.unwrap_or(0)),
        details: found.flag("bkp-details"),
        quiet: found.flag("quiet"),
        images_only: found.flag("fullpage"),
        manager,
        rel,
        block,
        fork,
        xid,
    })
}

fn path_given(alloc: Global, found: &Found<'_>) -> Result<Option<Text>, WordsFault>
    ensures { AnswersAs (given root_of (codes "path") found.now) result }
{
    match found.value("path") {
        None => Ok(None),
        Some(text) => Ok(Some(root(alloc, text)?)),
    }
}

fn first_given(alloc: Global, found: &Found<'_>) -> Result<Option<SegmentWord>, WordsFault>
    ensures { AnswersAs (given segment_word (codes "STARTSEG") found.now) result }
{
    match found.value("STARTSEG") {
        None => Ok(None),
        Some(text) => Ok(Some(segment_word(alloc, text)?)),
    }
}

fn last_given(alloc: Global, found: &Found<'_>) -> Result<Option<Text>, WordsFault>
    ensures { AnswersAs (given segment_name (codes "ENDSEG") found.now) result }
{
    match found.value("ENDSEG") {
        None => Ok(None),
        Some(text) => Ok(Some(segment_name(alloc, text)?)),
    }
}

#[tactic(auto, unfolding(crate::specs::Waldump::dump_in))]
fn dump_given(alloc: Global, found: &Found<'_>) -> Result<DumpTexts, WordsFault>
    ensures { AnswersAs (dump_in found.now) result }
{
    let filters = filters_given(found)?;
    let start = optional(found, "start")?;
    let stop = optional(found, "end")?;
    let timeline = optional(found, "timeline")?;
    let path = path_given(alloc, found)?;
    let first = first_given(alloc, found)?;
    let last = last_given(alloc, found)?;
    Ok(DumpTexts {
        path,
        first,
        last,
        start,
        stop,
        timeline,
        filters,
    })
}

/// What `pg_waldump` is asked to do. The first word is the command's name.
///
/// Answers `Usage` where the words are not in its grammar or a value isn't of its form, where a block is
/// given without a relation, and where a dump has neither `-s` nor STARTSEG. What depends on the size
/// of segments isn't judged here.
#[tactic(auto, using(crate::proofs::TableLemmas::waldump_is_simple))]
pub(crate) fn waldump_words(alloc: Global, words: &[String]) -> Result<WaldumpTexts, WordsFault>
    ensures exact { AnswersAs (waldump_of (map string_bytes words.now)) result }
{
    let table = table();
    let found = find(alloc, &table, words)?;
    let dump = dump_given(alloc, &found)?;
    if is_list(&found) {
        return Ok(WaldumpTexts::Managers);
    }
    if dump.start.is_none() && dump.first.is_none() {
        return Err(WordsFault::Usage);
    }
    Ok(WaldumpTexts::Dump(dump))
}
