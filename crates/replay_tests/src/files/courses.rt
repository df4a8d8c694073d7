// A device that fails at each call in turn: the answer is of that call's own count, and the changes made are the first.
use crate::fault::RowFault;
use crate::files::answer;
use crate::texts::{cut_at, owned, undashed};
use crate::told::Told;
use crate::trees::tree_of;
use cluster_tree::ChangeCall;
use memory_tree::{FailPlan, FailingTree, MemoryTree};
use std::alloc::{AllocError, Global};

/// A call, and what it changes.
#[derive(Clone, Copy)]
struct Course<'a> {
    call: &'a str,
    /// What the tree has.
    had: &'a str,
    /// The changes in order, each with its path.
    changes: &'a str,
}

// Adds a change to those of a list.
fn add_change(list: &mut String, change: &str) -> Result<(), AllocError> {
    let gap = if list.is_empty() { "" } else { ", " };
    write!(list, "{gap}{change}")
}

fn change_text(alloc: Global, call: &ChangeCall) -> Result<String, RowFault> {
    let (verb, path) = match call {
        ChangeCall::Write(path, _, _) => ("write", path),
        ChangeCall::Cut(path, _) => ("cut", path),
        ChangeCall::MakeFile(path) => ("file", path),
        ChangeCall::MakeFolder(path) => ("folder", path),
        ChangeCall::Remove(path) => ("remove", path),
        ChangeCall::Sync => return owned(alloc, "sync"),
    };
    Ok(format!(in alloc; "{verb} {path}")?)
}

// The tree's changes from a place on.
fn changes_from(alloc: Global, tree: &MemoryTree, from: usize) -> Result<String, RowFault> {
    let mut list = String::new(alloc);
    for at in from..tree.changes() {
        if let Some(call) = tree.change(at) {
            add_change(&mut list, &change_text(alloc, call)?)?;
        }
    }
    Ok(list)
}

// So many of the first of some changes.
fn first_of(alloc: Global, changes: &str, count: usize) -> Result<String, RowFault> {
    let mut list = String::new(alloc);
    for change in changes.split(", ").take(count) {
        add_change(&mut list, change)?;
    }
    Ok(list)
}

// How the call ends where the device's call of a number fails: an answer, and changes.
fn end(alloc: Global, number: u64, answer: &str, changes: &str) -> Result<String, RowFault> {
    let gap = if changes.is_empty() { "" } else { ": " };
    Ok(format!(in alloc; "call {number} {answer}{gap}{changes}")?)
}

// How the call ends so.
fn end_found(alloc: Global, course: &Course<'_>, number: u64) -> Result<String, RowFault> {
    let within = tree_of(alloc, course.had, "")?;
    let from = within.changes();
    let mut tree = FailingTree::new(within, FailPlan::At(number));
    let told = answer(alloc, &mut tree, course.call)?;
    let changes = changes_from(alloc, &tree.into_inner(), from)?;
    end(alloc, number, &told, &changes)
}

// Tells how the call ends so, if it isn't by this answer and with so many of the changes.
fn run_end(
    alloc: Global,
    told: &mut Told,
    course: &Course<'_>,
    number: u64,
    answer: &str,
    count: usize,
) -> Result<(), RowFault> {
    let changes = first_of(alloc, course.changes, count)?;
    let wanted = end(alloc, number, answer, &changes)?;
    told.compare(&end_found(alloc, course, number)?, &wanted)?;
    Ok(())
}

// What the call answers where one of the device's calls fails that reads, `r`, or that changes, `w`.
fn failed(kind: u8) -> Result<&'static str, RowFault> {
    match kind {
        b'r' => Ok("a read failed"),
        b'w' => Ok("a write failed"),
        _ => Err(RowFault::NotARow),
    }
}

/// Runs a row's call once for each of the device's calls, which fails then, and once where none does.
pub(crate) fn run_course(
    alloc: Global,
    told: &mut Told,
    row: &str,
    meant: &str,
) -> Result<(), RowFault> {
    let (call, had) = cut_at(row, ": ");
    let (ends, changes) = cut_at(meant, ": ");
    let (device, answer) = cut_at(ends, " ");
    let course = Course { call, had, changes };
    let mut number: u64 = 1;
    let mut count: usize = 0;
    for &kind in undashed(device).as_bytes() {
        run_end(alloc, told, &course, number, failed(kind)?, count)?;
        count = count.saturating_add(usize::from(kind == b'w'));
        number = number.saturating_add(1);
    }
    run_end(alloc, told, &course, number, answer, count)
}
