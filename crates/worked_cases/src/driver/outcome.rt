// A run, and what differs in it.
use case_lines::{Asked, Fails, LineFault, Told, Wanted, calls_from, command_of};
use memory_tree::{FailPlan, FailingTree, MemorySink, MemoryTree};
use sample_manager::SampleManager;
use std::alloc::Global;
use wal_tools::{run, run_with};

/// What a run left.
#[derive(Drop)]
pub(crate) struct Ran {
    pub(crate) tree: MemoryTree,
    pub(crate) status: u8,
    pub(crate) out: MemorySink,
    pub(crate) err: MemorySink,
}

/// Runs these words on a tree at a time, with some calls failing, and with the manager of the sample or with
/// none.
pub(crate) fn run_on(
    alloc: Global,
    tree: MemoryTree,
    words: &[String],
    now: i64,
    fails: Fails,
    has_manager: bool,
) -> Ran {
    let mut tree = FailingTree::new(tree, fails.tree);
    let mut out = MemorySink::new(alloc, fails.out);
    let mut err = MemorySink::new(alloc, fails.err);
    let exit = if has_manager {
        let custom = Some(&SampleManager);
        run_with(alloc, words, &mut tree, &mut out, &mut err, now, custom)
    } else {
        run(alloc, words, &mut tree, &mut out, &mut err, now)
    };
    Ran {
        tree: tree.into_inner(),
        status: exit.status,
        out,
        err,
    }
}

// Whether one of the lines of a text is this one.
fn has_line(text: &str, line: &str) -> bool {
    for it in text.split('\n') {
        if it == line {
            return true;
        }
    }
    false
}

// Tells the lines that standard output lacks.
fn compare_lines(alloc: Global, lines: &str, out: &[u8], told: &mut Told) -> Result<(), LineFault> {
    let out = String::from_utf8_lossy(alloc, out)?;
    for line in lines.split('\n') {
        if !has_line(&out, line) {
            told.tell(&["standard output lacks a line"])?;
        }
    }
    Ok(())
}

fn compare_out(
    alloc: Global,
    wanted: &Wanted,
    out: &[u8],
    told: &mut Told,
) -> Result<(), LineFault> {
    match wanted.has.strip_suffix('\n') {
        Some(lines) => compare_lines(alloc, lines, out, told),
        None => told.compare(alloc, "standard output", out, &wanted.out),
    }
}

// Whether bytes are the first whole lines of a text.
fn are_first_lines(bytes: &[u8], text: &str) -> bool {
    (bytes.is_empty() || bytes.ends_with(b"\n")) && text.as_bytes().starts_with(bytes)
}

// A run in which a read fails ends so, with the first lines of what is wanted.
fn compare_faulty(
    alloc: Global,
    asked: &Asked,
    ran: &Ran,
    told: &mut Told,
) -> Result<(), LineFault> {
    let mut said = String::from_str(alloc, command_of(&asked.words))?;
    said.push_str(": error: ReadFault\n")?;
    told.compare(alloc, "standard error", ran.err.bytes(), &said)?;
    if ran.status != 3 {
        told.tell(&["the status after a read that failed isn't 3"])?;
    }
    if !are_first_lines(ran.out.bytes(), &asked.wanted.out) {
        told.tell(&["standard output has no first lines after a read that failed"])?;
    }
    Ok(())
}

// Lets each read fail in turn. A run that makes fewer reads ends as it is wanted to. None of these runs may change
// anything.
fn fail_in_turn(
    alloc: Global,
    mut tree: MemoryTree,
    asked: &Asked,
    told: &mut Told,
) -> Result<MemoryTree, LineFault> {
    let before = tree.changes();
    for n in 1..=asked.fails.reads {
        let fails = Fails {
            tree: FailPlan::At(n),
            ..asked.fails
        };
        let ran = run_on(
            alloc,
            tree,
            &asked.words,
            asked.now,
            fails,
            asked.has_manager,
        );
        if ran.status != asked.wanted.status {
            compare_faulty(alloc, asked, &ran, told)?;
        }
        tree = ran.tree;
    }
    if tree.changes() != before {
        told.tell(&["a run changed something after a read that failed"])?;
    }
    Ok(tree)
}

// Tells what differs in a run from what is wanted of it. What it changed are the calls from this one on.
fn compare_ran(
    alloc: Global,
    wanted: &Wanted,
    ran: &Ran,
    first: usize,
    told: &mut Told,
) -> Result<(), LineFault> {
    told.compare(alloc, "standard error", ran.err.bytes(), &wanted.err)?;
    compare_out(alloc, wanted, ran.out.bytes(), told)?;
    if ran.status != wanted.status {
        told.tell(&["the status differs"])?;
    }
    if wanted.any_calls {
        return Ok(());
    }
    let calls = calls_from(alloc, &ran.tree, first)?;
    told.compare(alloc, "what was changed", calls.as_bytes(), &wanted.calls)
}

/// Runs what is asked, and tells what differs from what is wanted. Answers the tree as the run left it.
pub(crate) fn run_and_compare(
    alloc: Global,
    tree: MemoryTree,
    asked: &Asked,
    told: &mut Told,
) -> Result<MemoryTree, LineFault> {
    let first = tree.changes();
    let tree = fail_in_turn(alloc, tree, asked, told)?;
    let ran = run_on(
        alloc,
        tree,
        &asked.words,
        asked.now,
        asked.fails,
        asked.has_manager,
    );
    compare_ran(alloc, &asked.wanted, &ran, first, told)?;
    Ok(ran.tree)
}
