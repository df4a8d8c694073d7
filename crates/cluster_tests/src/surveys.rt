//! Each answer of a survey over trees in memory: `READ | TARGET | SOURCE | LINE, ..`, where the read of a number fails (none
//! for 0), a control file is `none`, `plain`, `short` by a byte, or fields and a sum, and lines stand beside them.
use crate::controls::surveyed;
use crate::texts::{number, says, shows, tell};
use crate::trees::{path_of, plan_of, put_all, put_file, root_of, tree_of};
use cluster_tree::Tree;
use clusters::{Found, read_whole};
use memory_tree::{FailPlan, FailingTree, MemoryTree};
use rewind_survey::{RewindFault, Surveyed, survey};
use std::process::Abort;
use tree_lines::cut_at;

/// Two control files are fit, or refused.
pub(crate) const CONTROLS: &str = "\
survey 0 | plain | plain | - = nothing on one timeline
survey 0 | 176 1 0, 252 4 1: 2352294678 | plain | - = nothing on one timeline
survey 0 | plain | 176 1 0: 3220803754 | - = nothing on one timeline
survey 0 | 100 1 1: 2501938330 | plain | - = the control file of t has the checksum 95208C9A and \
    not A4E9CA92
survey 0 | plain | 8 4 1500: 1777312656 | - = the control file of s has version 1500
survey 0 | 12 4 202209061: 3897876793 | plain | - = the control file of t has catalog version \
    202209061
survey 0 | 16 4 7: 3052519196 | plain | - = the control file of t has 7 as State
survey 0 | plain | 220 4 65536, 228 4 2097152: 2759380836 | - = the control file of s has 65536 as \
    Relseg
survey 0 | plain | 228 4 2097152, 0 8 7300000000000000002: 2949494289 | - = the control file of s \
    has 2097152 as WalSegSize
survey 0 | plain | 0 8 7300000000000000002, 16 4 4: 90921017 | - = the target is of system \
    7300000000000000001 and the source of system 7300000000000000002
survey 0 | 176 1 0, 16 4 4: 2403351279 | plain | - = t did not log hints
survey 0 | 16 4 4: 2778277599 | 16 4 6: 1183704562 | - = t was not shut down cleanly: its state is 4
survey 0 | plain | 16 4 3: 1983139767 | - = s was not shut down cleanly: its state is 3
survey 0 | plain | 16 4 2: 2236093785 | - = nothing on one timeline
survey 0 | 16 4 2, 144 4 2: 2020152777 | plain | - = t has no history of timeline 2
survey 0 | plain | 48 4 2: 2426670369 | - = s has no history of timeline 2
survey 0 | 144 4 2: 1744931850 | 48 4 2: 2426670369 | - = nothing on one timeline";

/// What the history of the source's timeline 2 says decides about a target on timeline 1 that has no log.
pub(crate) const HISTORIES: &str = "\
survey 0 | plain | 48 4 2: 2426670369 | d s/pg_wal, h s/pg_wal/00000002.history 780a = line 1 of \
    the history of timeline 2 of s is no entry
survey 0 | plain | 48 4 2: 2426670369 | d s/pg_wal, h s/pg_wal/00000002.history \
    3109302f31300a3109302f32300a = line 2 of the history of timeline 2 of s doesn't rise
survey 0 | plain | 48 4 2: 2426670369 | d s/pg_wal, h s/pg_wal/00000002.history 23206e6f6e650a = \
    the histories of target and source have nothing in common
survey 0 | plain | 48 4 2: 2426670369 | d s/pg_wal, h s/pg_wal/00000002.history \
    3109302f3130303041300970726f6d6f7465640a = the target's log ends at 0/28: NoSegment";

/// A mark of any kind is refused.
pub(crate) const MARKS: &str = "\
survey 0 | plain | plain | d s/pg_rewind.unfinished = an unfinished run left s/pg_rewind.unfinished
survey 0 | plain | plain | d s/pg_rewind.unfinished, f t/pg_resetwal.unfinished 0 = an unfinished \
    run left t/pg_resetwal.unfinished
survey 0 | plain | plain | d s/pg_rewind.unfinished, f t/pg_resetwal.unfinished 0, f \
    t/pg_walreplay.unfinished 0 = an unfinished run left t/pg_walreplay.unfinished";

/// A control file is missing or of another size.
pub(crate) const MISSING: &str = "\
survey 0 | none | none | - = t has no control file
survey 0 | plain | none | d s/global/pg_control = s has no control file
survey 0 | short | none | - = the control file of t has 8191 bytes";

/// A read that fails is told: six marks, and a size and a read for each control file.
pub(crate) const FAILING: &str = "\
survey 1 | plain | plain | - = a read failed
survey 2 | plain | plain | - = a read failed
survey 3 | plain | plain | - = a read failed
survey 4 | plain | plain | - = a read failed
survey 5 | plain | plain | - = a read failed
survey 6 | plain | plain | - = a read failed
survey 7 | plain | plain | - = a read failed
survey 8 | plain | plain | - = a read failed
survey 9 | plain | plain | - = a read failed
survey 10 | plain | plain | - = a read failed
survey 11 | plain | plain | - = nothing on one timeline";

/// Files `a` of the bytes `abc` and `b` that isn't there, read as a whole.
pub(crate) const WHOLE: &str = "\
whole a 3 = [97, 98, 99]
whole a 2 = Some(OtherSize(3))
whole b 3 = Some(Missing)";

// Puts the control file of a cluster.
fn put_control<R: AllocGlobal + Abort>(rt: &R, tree: &mut MemoryTree, file: &str, control: &str) {
    if control == "none" {
        return;
    }
    let size = if control == "short" { 8191 } else { 8192 };
    put_file(rt, tree, file, &surveyed(rt, control)[..size]);
}

// A target `t` and a source `s` with these control files, and lines beside them.
fn clusters_of<R: AllocGlobal + Abort>(
    rt: &R,
    target: &str,
    source: &str,
    lines: &str,
) -> MemoryTree {
    let mut tree = tree_of(rt, "d t, d t/global, d s, d s/global");
    put_control(rt, &mut tree, "t/global/pg_control", target);
    put_control(rt, &mut tree, "s/global/pg_control", source);
    put_all(rt, &mut tree, lines);
    tree
}

fn tell_answer<R: Abort>(rt: &R, out: &mut String, answer: &Result<Surveyed, RewindFault>) {
    match answer {
        Ok(Surveyed::SameTimeline) => tell(rt, out, "nothing on one timeline"),
        Ok(Surveyed::EndsAtFork(fork)) => shows(rt, out, "nothing past ", fork),
        Ok(Surveyed::Parted(found)) => shows(rt, out, "", &found.told),
        Err(fault) => says(rt, out, "", fault),
    }
}

// Tells what the target `t` needs to follow `s`.
fn tell_need<F: Tree, R: AllocGlobal + Abort>(rt: &R, out: &mut String, tree: &mut F) {
    let target = root_of(rt, "t");
    let source = root_of(rt, "s");
    assert!(rt;
        !target.holds(&source) && !source.holds(&target),
        "no two clusters"
    );
    tell_answer(rt, out, &survey(rt.alloc(), tree, &target, &source));
}

// Tells what a survey says, which has to leave the tree as it is.
fn tell_tree<R: AllocGlobal + Abort>(rt: &R, out: &mut String, tree: MemoryTree, plan: FailPlan) {
    let before = tree.changes();
    let mut tree = FailingTree::new(tree, plan);
    tell_need(rt, out, &mut tree);
    assert!(rt; tree.into_inner().changes() == before, "it was changed");
}

fn found_in<R: AllocGlobal + Abort>(rt: &R, file: &str, into: &mut [u8]) -> Found {
    let mut tree = tree_of(rt, "h a 616263");
    read_whole(&mut tree, path_of(rt, file), into).expect(rt, "no answer")
}

fn tell_whole<R: AllocGlobal + Abort>(rt: &R, out: &mut String, words: &str) {
    let (file, size) = cut_at(words, " ");
    let size = number(rt, size);
    let mut three = [0; 3];
    assert!(rt; size <= 3, "too large");
    match found_in(rt, file, &mut three[..size as usize]) {
        Found::Filled => shows(rt, out, "", &three),
        other => shows(rt, out, "", &Some(other)),
    }
}

/// `survey READ | TARGET | SOURCE | LINE, ..`, or `whole FILE SIZE`.
pub(crate) fn tell_survey<R: AllocGlobal + Abort>(
    rt: &R,
    out: &mut String,
    verb: &str,
    words: &str,
) {
    if verb == "whole" {
        return tell_whole(rt, out, words);
    }
    let (read, behind) = cut_at(words, " | ");
    let (target, behind) = cut_at(behind, " | ");
    let (source, lines) = cut_at(behind, " | ");
    let tree = clusters_of(rt, target, source, lines);
    tell_tree(rt, out, tree, plan_of(rt, read));
}
