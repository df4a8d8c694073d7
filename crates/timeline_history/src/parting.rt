//! Where two histories part.

ghost use Rattle.std.specs.Prelude.{◌≡◌, ◌≢◌, ◌↔◌, false};
ghost use Rattle.std.specs.List.{common_prefix_len};
ghost use Rattle.timeline_history.specs.declared.ancestor.Ancestor.TheVariants as ancestors;
ghost use Rattle.timeline_history.specs.declared.ancestor.Divergence.{Divergence};
ghost use Rattle.timeline_history.specs.Ancestor.{last_tli, is_same_start, smaller_end, agrees_at, fork_between, divergence_of};

use crate::ancestor::{Ancestor, Divergence};
use crate::history::History;
use wal_base::{Lsn, Span, Spans};

/// Whether both have a span at a place, of the same timeline from the same position on.
fn agrees_at(a: &Spans, b: &Spans, at: usize) -> bool
    ensures { result ≡ agrees_at a.now b.now at }
{
    match (a.get(at), b.get(at)) {
        (Some(x), Some(y)) => x.tli == y.tli && x.begin.0 == y.begin.0,
        _ => false,
    }
}

/// How many places from the front on agree.
fn shared_len(a: &Spans, b: &Spans) -> usize
    ensures { result ≡ common_prefix_len is_same_start a.now b.now }
{
    for at in 0..a.len() {
        if !agrees_at(a, b, at) {
            return at;
        }
    }
    a.len()
}

/// The smaller of two ends, of which 0, an end that isn't there, is the greatest.
fn smaller_end(a: Lsn, b: Lsn) -> Lsn
    ensures { result ≡ smaller_end a b }
{
    if a.0 == 0 {
        b
    } else if b.0 == 0 || a.0 <= b.0 {
        a
    } else {
        b
    }
}

/// The fork between two spans, if both are there.
fn fork_between(a: Option<Span>, b: Option<Span>) -> Ancestor
    ensures { result ≡ fork_between a b }
{
    match (a, b) {
        (Some(a), Some(b)) => Ancestor::Common(Divergence {
            tli: a.tli,
            at: smaller_end(a.end, b.end),
        }),
        _ => Ancestor::NoCommonAncestor,
    }
}

/// The fork between two lists of spans.
fn fork(a: &Spans, b: &Spans) -> Ancestor
    ensures { result ≡ divergence_of a.now b.now }
{
    let shared = shared_len(a, b);
    if shared == 0 {
        return Ancestor::NoCommonAncestor;
    }
    fork_between(a.get(shared - 1), b.get(shared - 1))
}

/// Where two histories part: the timeline of the last span up to which both have the same timelines from the same
/// positions on, and the smaller of its two ends. Answers `NoCommonAncestor` where the first spans differ already.
pub fn divergence(a: &History, b: &History) -> Ancestor
    requires parted { last_tli a.now ≢ last_tli b.now }
    ensures value { result ≡ divergence_of a.now b.now }
    // The smaller end is there.
    ensures ended { (fork : Divergence) → result ≡ ancestors.Common fork → fork.at.0 ≢ 0 }
    ensures none { (result ≡ ancestors.NoCommonAncestor) ↔ (agrees_at a.now b.now 0 ≡ false) }
{
    fork(a.spans(), b.spans())
}
