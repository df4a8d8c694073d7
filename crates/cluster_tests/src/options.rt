//! Options of resets as texts.
use crate::texts::{long, number};
use reset_cleanup::ResetOptions;
use std::process::Abort;
use tree_lines::cut_at;

/// No option.
const PLAIN: ResetOptions = ResetOptions {
    commit_ts: None,
    epoch: None,
    force: None,
    log: None,
    multi: None,
    dry: None,
    oid: None,
    multi_offset: None,
    oldest_xid: None,
    xid: None,
    segment_mb: None,
};

fn pair<R: Abort>(rt: &R, words: &str) -> (u32, u32) {
    let (first, second) = cut_at(words, " ");
    (number(rt, first), number(rt, second))
}

fn place<R: Abort>(rt: &R, words: &str) -> (u32, u64, u64) {
    let (tli, behind) = cut_at(words, " ");
    let (high, low) = cut_at(behind, " ");
    (number(rt, tli), long(rt, high), long(rt, low))
}

fn set_number<R: Abort>(rt: &R, options: &mut ResetOptions, letter: &str, value: u32) {
    match letter {
        "e" => options.epoch = Some(value),
        "o" => options.oid = Some(value),
        "O" => options.multi_offset = Some(value),
        "u" => options.oldest_xid = Some(value),
        "x" => options.xid = Some(value),
        "s" => options.segment_mb = Some(value),
        _ => panic!(rt; "no option"),
    }
}

fn set<R: Abort>(rt: &R, options: &mut ResetOptions, letter: &str, words: &str) {
    match letter {
        "c" => options.commit_ts = Some(pair(rt, words)),
        "f" => options.force = Some(()),
        "l" => options.log = Some(place(rt, words)),
        "m" => options.multi = Some(pair(rt, words)),
        "n" => options.dry = Some(()),
        _ => set_number(rt, options, letter, number(rt, words)),
    }
}

/// The options of a text: pg_resetwal's letters, or `s` for the size of segments, each with its numbers, with commas
/// between; none for a dash.
pub(crate) fn options_of<R: Abort>(rt: &R, text: &str) -> ResetOptions {
    let mut options = PLAIN;
    if text == "-" {
        return options;
    }
    for option in text.split(", ") {
        let (letter, words) = cut_at(option, " ");
        set(rt, &mut options, letter, words);
    }
    options
}
