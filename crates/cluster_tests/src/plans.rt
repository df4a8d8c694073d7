//! The steps of a plan. The expected steps are those of the rule of writes in docs/FORMATS.md, worked
//! out by hand.
use crate::kinds::kind_of;
use crate::texts::{says, tell};
use crate::touching::touched;
use crate::trees::path_of;
use cluster_tree::Path;
use file_walk::Pair;
use rewind_plan::{Clusters, first_lacking, steps_of};
use rewind_writes::Step;
use std::collections::VecDeque;
use std::process::Abort;
use tree_lines::cut_at;

/// Paths with what target and source have there, touched blocks of relation 16385, and the steps; `-` for none.
pub(crate) const PLANS: &str = "\
plan - | - = -
plan base/5/16385 40960 40960 | - = -
plan base/5/16385 40960 40960 | 2 3 = range s/base/5/16385 t/base/5/16385 16384 16384
plan base/5/16385 40960 131072 | - = range s/base/5/16385 t/base/5/16385 40960 90112
plan base/5/16385 40960 131072 | 0 4 = range s/base/5/16385 t/base/5/16385 0 8192, range \
    s/base/5/16385 t/base/5/16385 32768 98304
plan base/5/16385 40960 16384 | 1 3 = cut t/base/5/16385 16384, range s/base/5/16385 \
    t/base/5/16385 8192 8192
plan base/5/16385.1 16384 16384 | 1 131072 131073 = range s/base/5/16385.1 t/base/5/16385.1 0 16384
plan base/5/16385 - 8192, base/5/16386 8192 0, base/5/16387 8192 - | 0 = whole s/base/5/16385 \
    t/base/5/16385 8192, cut t/base/5/16386 0, remove t/base/5/16387
plan a / -, a/x 1 -, b - /, b-c - 5, b/d - 0, global/pg_control 8192 8192, pg_wal / /, pg_wal/1 7 \
    9 | - = folder t/b, whole s/b-c t/b-c 5, whole s/b/d t/b/d 0, whole s/pg_wal/1 t/pg_wal/1 9, \
    remove t/a/x, remove t/a";

/// The pair of a path, what the target has there and what the source has.
fn pair<R: AllocGlobal + Abort>(rt: &R, words: &str) -> Pair {
    let (path, sides) = cut_at(words, " ");
    let (target, source) = cut_at(sides, " ");
    Pair {
        path: path_of(rt, path),
        target: kind_of(rt, target),
        source: kind_of(rt, source),
    }
}

/// The pairs of a text.
fn pairs_of<R: AllocGlobal + Abort>(rt: &R, text: &str) -> Vec<Pair> {
    let mut pairs = Vec::new(rt.alloc());
    if text == "-" {
        return pairs;
    }
    for words in text.split(", ") {
        pairs.push(pair(rt, words)).expect(rt, "no memory");
    }
    pairs
}

/// Tells a copy from a file to another.
fn tell_copy<R: Abort>(rt: &R, out: &mut String, verb: &str, from: &Path, to: &Path) {
    says(rt, out, verb, from);
    says(rt, out, " ", to);
}

fn tell_step<R: Abort>(rt: &R, out: &mut String, step: &Step) {
    match step {
        Step::Folder(path) => says(rt, out, "folder ", path),
        Step::Whole { from, to, size } => {
            tell_copy(rt, out, "whole ", from, to);
            says(rt, out, " ", size);
        }
        Step::Cut(path, size) => {
            says(rt, out, "cut ", path);
            says(rt, out, " ", size);
        }
        Step::Range { from, to, at, size } => {
            tell_copy(rt, out, "range ", from, to);
            says(rt, out, " ", at);
            says(rt, out, " ", size);
        }
        Step::Remove(path) => says(rt, out, "remove ", path),
    }
}

pub(crate) fn tell_all<R: Abort>(rt: &R, out: &mut String, steps: &VecDeque<Step>) {
    for step in steps.iter() {
        if !out.is_empty() {
            tell(rt, out, ", ");
        }
        tell_step(rt, out, step);
    }
}

/// Tells the steps of such clusters, a dash for none.
fn tell_steps<R: AllocGlobal + Abort>(
    rt: &R,
    out: &mut String,
    clusters: &Clusters<'_>,
    pairs: &[Pair],
) {
    assert!(rt; first_lacking(clusters, pairs).is_none(), "too deep");
    let steps = steps_of(rt.alloc(), clusters, pairs).expect(rt, "no memory");
    tell_all(rt, out, &steps);
    if out.is_empty() {
        tell(rt, out, "-");
    }
}

/// The steps between the roots `t` and `s`, of files of 131072 blocks at most: `PAIR, .. | BLOCK ..`.
pub(crate) fn tell_plan<R: AllocGlobal + Abort>(rt: &R, out: &mut String, words: &str) {
    let (pairs, blocks) = cut_at(words, " | ");
    let pairs = pairs_of(rt, pairs);
    let clusters = Clusters {
        target: &path_of(rt, "t"),
        source: &path_of(rt, "s"),
        per_file: 131_072,
        touched: &touched(rt, blocks),
    };
    tell_steps(rt, out, &clusters, &pairs);
}
