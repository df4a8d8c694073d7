// The changing calls of a run, a line each, but one line for writes to one file that lie next to each other.
use cluster_tree::ChangeCall;
use memory_tree::MemoryTree;
use std::alloc::{AllocError, Global};

// Whether a changing call behind another is a write that goes on where that one ends.
fn goes_on(tree: &MemoryTree, at: usize) -> bool {
    match (tree.change(at.saturating_sub(1)), tree.change(at)) {
        (Some(ChangeCall::Write(file, start, count)), Some(ChangeCall::Write(next, there, _))) => {
            file.holds(next) && next.holds(file) && start.saturating_add(*count) == *there
        }
        _ => false,
    }
}

// Where the writes end that go on from this one.
fn end_of(tree: &MemoryTree, first: usize) -> u64 {
    let mut end = 0;
    for at in first..tree.changes() {
        if at > first && !goes_on(tree, at) {
            break;
        }
        if let Some(ChangeCall::Write(_, start, count)) = tree.change(at) {
            end = start.saturating_add(*count);
        }
    }
    end
}

// Adds the line of a changing call.
fn add_call(lines: &mut String, call: &ChangeCall, end: u64) -> Result<(), AllocError> {
    match call {
        ChangeCall::Write(path, at, _) => {
            writeln!(lines, "write {path} {at} {}", end.saturating_sub(*at))
        }
        ChangeCall::Cut(path, size) => writeln!(lines, "cut {path} {size}"),
        ChangeCall::MakeFile(path) => writeln!(lines, "file {path}"),
        ChangeCall::MakeFolder(path) => writeln!(lines, "folder {path}"),
        ChangeCall::Remove(path) => writeln!(lines, "remove {path}"),
        ChangeCall::Sync => writeln!(lines, "sync"),
    }
}

/// The changing calls from this one on.
pub fn calls_from(alloc: Global, tree: &MemoryTree, first: usize) -> Result<String, AllocError> {
    let mut lines = String::new(alloc);
    for at in first..tree.changes() {
        if at > first && goes_on(tree, at) {
            continue;
        }
        if let Some(call) = tree.change(at) {
            add_call(&mut lines, call, end_of(tree, at))?;
        }
    }
    Ok(lines)
}
