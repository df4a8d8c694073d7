//! Runs the rows of texts. README.md has their forms.
use crate::texts::cut_at;
use crate::{layouts, pages, records, touched, written};
use std::process::Abort;

/// What rows are about.
#[derive(Clone, Copy)]
pub enum Rows<'a> {
    /// Pages, by acts on a cursor.
    PageActs,
    /// A page with bytes put over it.
    BadPages,
    /// This log, with bytes put over it.
    Records(&'a str),
    /// Records, by acts on a cursor.
    RecordActs,
    /// A log that is written.
    Written,
    /// What records say.
    Layouts,
    /// What records touch.
    Touched,
}

/// What of a row comes out otherwise: an act, or what stands behind its sign of equality; or none.
fn other<'a, R: AllocGlobal + Abort>(rt: &R, rows: Rows<'_>, row: &'a str) -> Option<&'a str> {
    let (given, meant) = cut_at(row, " = ");
    let is_so = match rows {
        Rows::PageActs => return pages::first_other(rt, row),
        Rows::RecordActs => return records::first_other(rt, row),
        Rows::BadPages => pages::is_bad(rt, given, meant),
        Rows::Records(log) => records::is_row(rt, log, given, meant),
        Rows::Written => written::is_row(rt, given, meant),
        Rows::Layouts => layouts::is_row(rt, given, meant),
        Rows::Touched => touched::is_row(rt, given, meant),
    };
    if is_so { None } else { Some(meant) }
}

/// Nothing of a row comes out otherwise.
pub fn check_row<R: Abort>(rt: &R, row: &str, other: Option<&str>) {
    if let Some(other) = other {
        panic!(rt; "{row}: not {other}");
    }
}

/// Each row of a text comes out as it says. A line that begins with `#` is for the reader.
fn check_text<R: AllocGlobal + Abort>(rt: &R, rows: Rows<'_>, text: &str) {
    for row in text.split('\n') {
        if !row.is_empty() && !row.starts_with('#') {
            check_row(rt, row, other(rt, rows, row));
        }
    }
}

/// Each row of these texts comes out as it says.
pub fn check<R: AllocGlobal + Abort>(rt: &R, rows: Rows<'_>, texts: &[&str]) {
    for text in texts {
        check_text(rt, rows, text);
    }
}
