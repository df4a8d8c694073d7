//! Runs the rows of texts. README.md has their forms.
use crate::callers::ended;
use crate::control_files::of_control;
use crate::histories::of_history;
use crate::masks::of_mask;
use crate::numbers::of_number;
use crate::pages::of_page;
use crate::paths::of_path;
use crate::texts::{first_word, path_of, said, shown};
use crate::trees::{changed, first_mark, is_sync, mark_path, names_of, small_tree};
use crate::{calls, control_files, fakes, histories, masks, numbers, pages, paths};
use cluster_tree::Tree;
use memory_tree::MemoryTree;
use std::process::Abort;

/// How a call on a path ends, or what kind of entry stands there.
fn called<R: AllocGlobal + Abort>(rt: &R, tree: &mut MemoryTree, verb: &str, text: &str) -> String {
    let path = path_of(rt, text);
    match verb {
        "kind" => shown(rt, &tree.kind(&path)),
        _ => shown(rt, &ended(rt, tree, verb, &path)),
    }
}

/// What a row of the tree is answered.
fn of_tree<R: AllocGlobal + Abort>(
    rt: &R,
    tree: &mut MemoryTree,
    verb: &str,
    words: &str,
) -> String {
    match verb {
        "write" | "shorten" | "rewrite" => changed(rt, tree, verb, words),
        "mark" => first_mark(rt, tree, words),
        "mark_path" => mark_path(rt, words),
        "sorted" => names_of(rt, words),
        "changes" => said(rt, &tree.changes()),
        "synced" => said(rt, &is_sync(rt, tree, words)),
        _ => called(rt, tree, verb, words),
    }
}

/// What a row is answered.
fn told<R: AllocGlobal + Abort>(rt: &R, tree: &mut MemoryTree, row: &str) -> String {
    let (verb, words) = first_word(row);
    match verb {
        "number" => of_number(rt, words),
        "control" => of_control(rt, words),
        "history" => of_history(rt, words),
        "page" => of_page(rt, words),
        "mask" => of_mask(rt, words),
        "path" => of_path(rt, words),
        _ => of_tree(rt, tree, verb, words),
    }
}

/// A row is answered as it says.
fn check_row<R: AllocGlobal + Abort>(rt: &R, tree: &mut MemoryTree, line: &str) {
    let (row, meant) = line.split_once(" = ").expect(rt, "no answer");
    let told = told(rt, tree, row);
    assert!(rt; told.as_str() == meant, "{line}: {told}");
}

/// Each row of a text, in turn on one small tree, is answered as it says.
fn check_text<R: AllocGlobal + Abort>(rt: &R, text: &str) {
    let mut tree = small_tree(rt);
    for line in text.split('\n') {
        check_row(rt, &mut tree, line);
    }
}

/// Each row of these texts is answered as it says.
fn check<R: AllocGlobal + Abort>(rt: &R, texts: &[&str]) {
    for text in texts {
        check_text(rt, text);
    }
}

#[test]
fn each_row_is_answered(rt: HostRuntime) {
    check(
        &rt,
        &[
            numbers::ROWS,
            control_files::TIMELINES,
            control_files::SIZES,
            control_files::REFUSED,
            control_files::TIMES,
            control_files::SHOWN,
            histories::SPANS,
            histories::FAULTS,
            histories::PARTED,
            histories::MESSAGES,
            pages::OF_ZEROS,
            pages::OF_THREE,
            masks::HINTS,
            masks::KINDS,
            masks::OTHERS,
            paths::PATHS,
            paths::JOINED,
            paths::PARTS,
            paths::HELD,
            paths::ORDER,
            paths::NAMES,
            calls::KINDS,
            calls::REFUSED,
            calls::WRITTEN,
            calls::REWRITTEN,
            calls::LISTED,
            calls::CHANGES,
            fakes::MARKS,
        ],
    );
}
