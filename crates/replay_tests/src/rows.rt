//! Runs the rows of texts. README.md has their forms.
use crate::effects::effect;
use crate::fault::{RowFault, TextFault};
use crate::files::answer;
use crate::files::courses::run_course;
use crate::files::endless::EndlessTree;
use crate::firsts::changed_first;
use crate::logs::cursor_by;
use crate::profile::{judged, measured};
use crate::redo::redone_row;
use crate::texts::{cut_at, owned, words_of};
use crate::told::Told;
use crate::trees::{is_so, tree_of};
use memory_tree::MemoryTree;
use std::alloc::Global;
use wal_records::Record;

/// What rows are about.
#[derive(Clone, Copy)]
enum Rows<'a> {
    /// A record alone.
    Record,
    /// A call on a tree with these entries and the row's own.
    Left(&'a str),
    /// A call on a device that fails.
    Failing,
    /// A call on a tree whose folders have no end.
    Endless,
}

/// What a call tells of a record, by the words behind it.
fn told_by(alloc: Global, rec: &Record, call: &str, words: &str) -> Result<String, RowFault> {
    match call {
        "judge" => judged(alloc, rec),
        "short" => owned(alloc, measured(rec)?),
        _ => effect(alloc, rec, call, words),
    }
}

/// What a call tells of the record behind it.
fn told_of(alloc: Global, row: &str) -> Result<String, RowFault> {
    let (call, behind) = cut_at(row, " ");
    let (manager, info, body, words) = words_of(behind);
    let cursor = cursor_by(alloc, 700, manager, info, body)?;
    let rec = cursor.current().ok_or(RowFault::NotARecord)?;
    told_by(alloc, rec, call, words)
}

/// What is told of the record that a row has before its sign of equality, or of the records.
fn told_in(alloc: Global, row: &str) -> Result<String, RowFault> {
    if let Some(records) = row.strip_prefix("first ") {
        changed_first(alloc, records)
    } else if row.contains(" | ") {
        redone_row(alloc, row)
    } else {
        told_of(alloc, row)
    }
}

/// Tells which facts aren't so.
fn run_facts(
    alloc: Global,
    told: &mut Told,
    tree: &mut MemoryTree,
    facts: &str,
) -> Result<(), RowFault> {
    for fact in facts.split(", ") {
        if !is_so(alloc, tree, fact)? {
            told.tell_not_so(fact)?;
        }
    }
    Ok(())
}

/// Runs a row's call on a tree with these entries and the row's own.
fn run_left(
    alloc: Global,
    told: &mut Told,
    had: &str,
    row: &str,
    meant: &str,
) -> Result<(), RowFault> {
    let (call, own) = cut_at(row, ": ");
    let (wanted, facts) = cut_at(meant, ": ");
    let mut tree = tree_of(alloc, had, own)?;
    told.compare(&answer(alloc, &mut tree, call)?, wanted)?;
    run_facts(alloc, told, &mut tree, facts)
}

/// Runs a row: what it has before its sign of equality, and what has to come out.
fn run_row(
    alloc: Global,
    told: &mut Told,
    rows: Rows<'_>,
    row: &str,
    meant: &str,
) -> Result<(), RowFault> {
    match rows {
        Rows::Record => told.compare(&told_in(alloc, row)?, meant)?,
        Rows::Left(had) => run_left(alloc, told, had, row, meant)?,
        Rows::Failing => run_course(alloc, told, row, meant)?,
        Rows::Endless => told.compare(&answer(alloc, &mut EndlessTree, row)?, meant)?,
    }
    told.rows = told.rows.saturating_add(1);
    Ok(())
}

/// What rows are about, by the words behind `rows`.
fn rows_of<'a>(words: &'a str) -> Result<Rows<'a>, RowFault> {
    let (kind, had) = cut_at(words, " ");
    match kind {
        "record" => Ok(Rows::Record),
        "left" => Ok(Rows::Left(had)),
        "failing" => Ok(Rows::Failing),
        "endless" => Ok(Rows::Endless),
        _ => Err(RowFault::NotAKind),
    }
}

/// Takes a line among rows of a kind, and answers of which kind those behind it are.
fn take<'a>(
    alloc: Global,
    told: &mut Told,
    rows: Option<Rows<'a>>,
    line: &'a str,
) -> Result<Option<Rows<'a>>, RowFault> {
    if line.is_empty() || line.starts_with('#') {
        return Ok(rows);
    }
    if let Some(words) = line.strip_prefix("rows ") {
        return Ok(Some(rows_of(words)?));
    }
    let (row, meant) = line.split_once(" = ").ok_or(RowFault::NotARow)?;
    run_row(alloc, told, rows.ok_or(RowFault::NoKind)?, row, meant)?;
    Ok(rows)
}

/// Runs the rows of a text, up to the first line that can't be taken.
pub(crate) fn run_text(alloc: Global, text: &str) -> Result<Told, TextFault> {
    let mut told = Told::new(alloc);
    let mut rows = None;
    for line in text.split('\n') {
        told.line = told.line.saturating_add(1);
        match take(alloc, &mut told, rows, line) {
            Ok(next) => rows = next,
            Err(fault) => {
                let line = told.line;
                return Err(TextFault { line, fault });
            }
        }
    }
    Ok(told)
}
