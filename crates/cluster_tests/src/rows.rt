//! Runs the rows of texts. README.md has their forms.
use crate::areas::tell_areas;
use crate::begun::tell_begun;
use crate::copies::tell_copies;
use crate::endless::tell_endless;
use crate::faults::tell_faults;
use crate::held::tell_held;
use crate::labels::tell_labels;
use crate::lists::tell_lists;
use crate::numbers::tell_numbers;
use crate::paths::tell_path;
use crate::plans::tell_plan;
use crate::resets::tell_reset;
use crate::restored::tell_restored;
use crate::resumes::tell_resumes;
use crate::stored::tell_stored;
use crate::surveys::tell_survey;
use crate::walks::tell_walks;
use crate::{
    areas, begun, copies, endless, faults, held, labels, lists, numbers, paths, plans, refusals,
    resets, restored, resumes, stored, surveys, walks,
};
use std::process::Abort;
use tree_lines::cut_at;

/// The texts of rows of labels.
const LABELS: [&str; 2] = [labels::WRITTEN, labels::READ];

/// The texts of rows of resets.
const RESETS: [&str; 12] = [
    numbers::NUMBERS,
    numbers::LIMITS,
    numbers::BEHIND,
    numbers::FIT,
    numbers::NAMES,
    resets::SEGMENTS,
    resets::OPTIONS,
    refusals::REFUSED,
    refusals::DONE,
    refusals::DRY_RUNS,
    faults::BROKEN,
    faults::CALLS,
];

/// The texts of rows of rewinds.
const REWINDS: [&str; 15] = [
    paths::ACTIONS,
    paths::EXCLUDED,
    paths::RELATIONS,
    plans::PLANS,
    stored::MARKS,
    stored::TAKEN,
    stored::FORMS,
    stored::PATHS,
    stored::PLACES,
    surveys::CONTROLS,
    surveys::HISTORIES,
    surveys::MARKS,
    surveys::MISSING,
    surveys::FAILING,
    surveys::WHOLE,
];

/// The texts of rows of rewinds done again.
const RESUMES: [&str; 9] = [
    held::MARKS,
    held::SOURCES,
    held::FAILING,
    resumes::ENDS,
    resumes::DIFFERING,
    resumes::CHANGED,
    resumes::BLOCKS,
    resumes::FAILS,
    resumes::STOPS,
];

/// The texts of rows of walks.
const WALKS: [&str; 6] = [
    walks::IN_ORDER,
    walks::REFUSED,
    walks::FAILING,
    walks::COUNTED,
    walks::PAIRS,
    endless::ENDLESS,
];

/// The texts of rows of lists in the marks of replays.
const LISTS: [&str; 14] = [
    lists::KINDS,
    lists::TAKEN,
    lists::FORMS,
    lists::PATHS,
    areas::LISTED,
    areas::ELSEWHERE,
    areas::REFUSED,
    areas::FAILING,
    begun::MARKS,
    begun::COPIES,
    begun::FAILING,
    copies::STOPS,
    restored::BACK,
    restored::IN_THE_WAY,
];

/// Tells what a row of labels, resets or walks is answered.
fn tell_clusters<R: AllocGlobal + Abort>(rt: &R, out: &mut String, verb: &str, words: &str) {
    match verb {
        "numbers" | "fit" | "segment" | "status" => tell_numbers(rt, out, verb, words),
        "broken" | "call" => tell_faults(rt, out, verb, words),
        "label" | "read" => tell_labels(rt, out, verb, words),
        "reset" | "keep" | "change" => tell_reset(rt, out, verb, words),
        "endless" => tell_endless(rt, out, words),
        _ => tell_walks(rt, out, verb, words),
    }
}

/// Tells what a row of replays that are started again is answered.
fn tell_restarts<R: AllocGlobal + Abort>(rt: &R, out: &mut String, verb: &str, words: &str) {
    match verb {
        "areas" => tell_areas(rt, out, words),
        "begun" => tell_begun(rt, out, words),
        "restored" | "unrestored" => tell_restored(rt, out, verb, words),
        "copies" => {
            let (verb, calls) = cut_at(words, " ");
            tell_copies(rt, out, verb, calls);
        }
        "replay" | "listed" | "depth" => tell_lists(rt, out, verb, words),
        _ => tell_clusters(rt, out, verb, words),
    }
}

/// Tells what a row is answered.
fn tell<R: AllocGlobal + Abort>(rt: &R, out: &mut String, row: &str) {
    let (verb, words) = cut_at(row, " ");
    match verb {
        "action" | "excluded" | "relation" => tell_path(rt, out, verb, words),
        "plan" => tell_plan(rt, out, words),
        "mark" | "stored" | "deep" => tell_stored(rt, out, verb, words),
        "survey" | "whole" => tell_survey(rt, out, verb, words),
        "held" => tell_held(rt, out, words),
        "resume" | "blocks" | "fails" | "stop" => tell_resumes(rt, out, verb, words),
        _ => tell_restarts(rt, out, verb, words),
    }
}

/// A row is answered as it says.
fn check_row<R: AllocGlobal + Abort>(rt: &R, row: &str, meant: &str) {
    let mut told = String::new(rt.alloc());
    tell(rt, &mut told, row);
    assert!(rt; told.as_str() == meant, "{row} = {meant}: {told}");
}

/// Each row of a text is answered as it says.
fn check<R: AllocGlobal + Abort>(rt: &R, text: &str) {
    for line in text.split('\n') {
        if let Some((row, meant)) = line.split_once(" = ") {
            check_row(rt, row, meant);
        }
    }
}

#[test]
fn each_row_of_a_label_is_answered(rt: HostRuntime) {
    for text in LABELS {
        check(&rt, text);
    }
}

#[test]
fn each_row_of_a_reset_is_answered(rt: HostRuntime) {
    for text in RESETS {
        check(&rt, text);
    }
}

#[test]
fn each_row_of_a_rewind_is_answered(rt: HostRuntime) {
    for text in REWINDS {
        check(&rt, text);
    }
}

#[test]
fn each_row_of_a_resume_is_answered(rt: HostRuntime) {
    for text in RESUMES {
        check(&rt, text);
    }
}

#[test]
fn each_row_of_a_walk_is_answered(rt: HostRuntime) {
    for text in WALKS {
        check(&rt, text);
    }
}

#[test]
fn each_row_of_a_list_is_answered(rt: HostRuntime) {
    for text in LISTS {
        check(&rt, text);
    }
}
