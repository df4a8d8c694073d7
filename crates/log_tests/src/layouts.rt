//! Layouts of records and of the bytes of blocks, and names of operations: rows of texts.
mod block_names;
mod block_texts;
mod blocks;
mod ends;
mod fixed;
mod layout_texts;
mod lists;
mod name_texts;
mod names;
mod prefixes;

use crate::rows::{Rows, check};
use crate::texts::{cut_at, decoded};
use crate::told::Told;
use block_names::block_name;
use blocks::block;
use ends::end;
use fixed::{heap, page, transaction, xlog};
use lists::list;
use names::name;
use prefixes::prefix;
use std::process::Abort;

/// Whether a layout of main bytes, by its name, is read as a row says.
fn is_read(name: &str, bytes: &[u8], meant: &str) -> bool {
    let mut told = Told::new(meant);
    let found = xlog(&mut told, name, bytes)
        || transaction(&mut told, name, bytes)
        || heap(&mut told, name, bytes)
        || page(&mut told, name, bytes)
        || list(&mut told, name, bytes)
        || end(&mut told, name, bytes)
        || prefix(&mut told, name, bytes);
    found && told.is_all()
}

/// `whole NAME HEX` or `read NAME HEX`: whether the bytes are read as a row says; whole ones aren't when they are cut by one.
fn layout<R: AllocGlobal + Abort>(rt: &R, verb: &str, behind: &str, meant: &str) -> bool {
    let (name, digits) = cut_at(behind, " ");
    let bytes = decoded(rt, digits);
    let cut = &bytes[..bytes.len().saturating_sub(1)];
    (verb == "read" || is_read(name, cut, "none")) && is_read(name, &bytes, meant)
}

/// Whether a line is read as a row says.
pub fn is_row<R: AllocGlobal + Abort>(rt: &R, line: &str, meant: &str) -> bool {
    let (verb, behind) = cut_at(line, " ");
    match verb {
        "whole" | "read" => layout(rt, verb, behind, meant),
        "block" => block(rt, behind, meant),
        "fork" | "shown" | "rising" => block_name(rt, verb, behind, meant),
        _ => name(rt, verb, behind, meant),
    }
}

#[test]
fn layouts_and_names_are_read_as_they_say(rt: HostRuntime) {
    check(
        &rt,
        Rows::Layouts,
        &[
            layout_texts::LAYOUTS,
            layout_texts::FORKS,
            layout_texts::LISTS,
            layout_texts::ENDS,
            layout_texts::PREFIXES,
            block_texts::HEAP,
            block_texts::BTREE,
            name_texts::NAMES,
            block_names::NAMES,
        ],
    );
}
