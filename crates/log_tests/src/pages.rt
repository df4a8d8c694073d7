// Pages of a log, as texts of acts on a cursor over them.
use crate::logs::{FIRST, SYSTEM, add_file, log_path, one_timeline, page, size, tree_of, write};
use crate::page_rows::{BAD, CASES, TWO_PAGES};
use crate::rows::{Rows, check};
use crate::texts::{bytes_of, cut_at, path_of, plan_of, position};
use crate::told::Told;
use cluster_tree::{Path, Tree};
use memory_tree::{FailPlan, FailingTree, MemoryTree};
use std::process::Abort;
use wal_base::{Lsn, Spans};
use wal_pages::{PageCursor, PageFault, PageField, PageHeader};

/// Whether an answer is what a row says: `page FLAGS TIMELINE AT REMAINING`, or why there is none.
fn is_told(answer: &Result<PageHeader, PageFault>, wanted: &str) -> bool {
    let mut told = Told::new(wanted);
    match answer {
        Ok(page) => {
            told.shows("page ", &page.info);
            told.shows(" ", &page.tli);
            told.says(" ", &page.address);
            told.shows(" ", &page.remaining);
        }
        Err(PageFault::SegmentMissing(segment)) => {
            told.shows("missing ", &segment.tli);
            told.shows(" ", &segment.number);
        }
        Err(PageFault::ShortSegment(segment)) => {
            told.shows("short ", &segment.tli);
            told.shows(" ", &segment.number);
        }
        Err(PageFault::BadPage(place, field)) => {
            told.says("", place);
            told.shows(" ", field);
        }
        Err(PageFault::ReadFault) => told.text("failed"),
        Err(_) => told.text("another fault"),
    }
    told.is_all()
}

/// Whether a cursor holds the page that was answered, or none.
fn holds(cursor: &PageCursor, answer: &Result<PageHeader, PageFault>) -> bool {
    match answer {
        Ok(answered) => {
            let header = page(answered.address.0, answered.info, answered.remaining);
            cursor.page().len() == 8192
                && cursor.page().starts_with(&header[..4])
                && cursor.page()[8..20] == header[8..20]
        }
        Err(_) => cursor.page().is_empty(),
    }
}

/// Puts bytes at a position: `AT BYTES`.
fn put<R: AllocGlobal + Abort>(rt: &R, tree: &mut FailingTree, words: &str) {
    let (at, bytes) = cut_at(words, " ");
    write(rt, tree, position(rt, at), &bytes_of(rt, bytes));
}

/// Whether a page is read as a row says, and then held: `read AT: ANSWER` or `turn AT: ANSWER`.
fn is_read<R: Abort>(
    rt: &R,
    tree: &mut FailingTree,
    cursor: &mut PageCursor,
    verb: &str,
    words: &str,
) -> bool {
    let (at, wanted) = cut_at(words, ": ");
    let at = Lsn(position(rt, at));
    let answer = match verb {
        "read" => cursor.read_page(tree, at),
        "turn" => cursor.turn_to(tree, at),
        _ => panic!(rt; "no such act"),
    };
    is_told(&answer, wanted) && holds(cursor, &answer)
}

/// Whether an act comes out as it has to: `put AT BYTES`, `forget`, `read AT: ANSWER` or `turn AT: ANSWER`.
fn is_done<R: AllocGlobal + Abort>(
    rt: &R,
    tree: &mut FailingTree,
    cursor: &mut PageCursor,
    act: &str,
) -> bool {
    let (verb, words) = cut_at(act, " ");
    match verb {
        "forget" => {
            cursor.forget();
            cursor.page().is_empty()
        }
        "put" => {
            put(rt, tree, words);
            true
        }
        _ => is_read(rt, tree, cursor, verb, words),
    }
}

/// The first act that comes out otherwise, if there is one.
fn first_other_act<'a, R: AllocGlobal + Abort>(
    rt: &R,
    tree: &mut FailingTree,
    cursor: &mut PageCursor,
    acts: &'a str,
) -> Option<&'a str> {
    for act in acts.split("; ") {
        if !is_done(rt, tree, cursor, act) {
            return Some(act);
        }
    }
    None
}

/// A cursor over the log of some timelines.
fn cursor_of<R: AllocGlobal + Abort>(rt: &R, spans: Spans, system: Option<u64>) -> PageCursor {
    let log = log_path(rt, size(rt), spans, system);
    PageCursor::new(rt.alloc(), log).expect(rt, "no memory")
}

/// The system that is wanted: its own, or any.
fn system_of<R: Abort>(rt: &R, text: &str) -> Option<u64> {
    match text {
        "own" => Some(SYSTEM),
        "any" => None,
        _ => panic!(rt; "no system"),
    }
}

/// The first act of a case that comes out otherwise, if there is one: `CELL, .. | SYSTEM | PLAN | ACT; ..`.
pub fn first_other<'a, R: AllocGlobal + Abort>(rt: &R, case: &'a str) -> Option<&'a str> {
    let (cells, behind) = cut_at(case, " | ");
    let (system, behind) = cut_at(behind, " | ");
    let (plan, acts) = cut_at(behind, " | ");
    let mut cursor = cursor_of(rt, one_timeline(rt), system_of(rt, system));
    let mut tree = FailingTree::new(tree_of(rt, cells), plan_of(rt, plan));
    first_other_act(rt, &mut tree, &mut cursor, acts)
}

#[test]
fn pages_are_read_held_and_refused(rt: HostRuntime) {
    check(&rt, Rows::PageActs, &[CASES]);
}

/// The two pages, with bytes put over them.
fn bad_tree<R: AllocGlobal + Abort>(rt: &R, words: &str) -> FailingTree {
    let mut tree = FailingTree::new(tree_of(rt, TWO_PAGES), FailPlan::Never);
    put(rt, &mut tree, words);
    tree
}

/// Whether a row's page is bad as it says: `AT BYTES = PAGE FIELD`.
pub fn is_bad<R: AllocGlobal + Abort>(rt: &R, words: &str, bad: &str) -> bool {
    let (at, _) = cut_at(bad, " ");
    let at = Lsn(position(rt, at));
    let mut cursor = cursor_of(rt, one_timeline(rt), Some(SYSTEM));
    let answer = cursor.read_page(&mut bad_tree(rt, words), at);
    is_told(&answer, bad) && holds(&cursor, &answer)
}

#[test]
fn a_bad_page_is_told_by_the_first_rule_that_it_breaks(rt: HostRuntime) {
    check(&rt, Rows::BadPages, &[BAD]);
}

/// Makes a file of the two pages, whose first one names a timeline.
fn put_timeline<R: Abort>(rt: &R, tree: &mut MemoryTree, file: &Path, tli: u8) {
    tree.write_at(file, 0, &page(FIRST, 2, 0))
        .expect(rt, "no bytes");
    tree.write_at(file, 4, &[tli]).expect(rt, "no bytes");
}

/// A file of segment 1 of timeline 2 whose page names a timeline.
fn tree_naming<R: AllocGlobal + Abort>(rt: &R, tli: u8) -> MemoryTree {
    let name = "log/000000020000000000000001";
    let mut tree = tree_of(rt, "");
    add_file(rt, &mut tree, name, 16_384);
    put_timeline(rt, &mut tree, &path_of(rt, name), tli);
    tree
}

/// Timeline 1 up to 0/180000, and timeline 2.
fn two_timelines<R: AllocGlobal + Abort>(rt: &R) -> Spans {
    let mut spans = one_timeline(rt);
    spans.end_and_add(Lsn(0x18_0000), 2).expect(rt, "no memory");
    spans
}

/// The timeline that the page of that file names, by a cursor.
fn timeline_read<R: AllocGlobal + Abort>(rt: &R, cursor: &mut PageCursor, tli: u8) -> Option<u32> {
    match cursor.read_page(&mut tree_naming(rt, tli), Lsn(FIRST)) {
        Ok(page) => Some(page.tli),
        Err(_) => None,
    }
}

/// Timeline 1 ends in the middle of segment 1, which is therefore read from the file of timeline 2:
/// the one of timeline 1 isn't there. Its pages may name either timeline.
#[test]
fn a_segment_is_read_from_the_timeline_that_reaches_its_end(rt: HostRuntime) {
    let mut cursor = cursor_of(&rt, two_timelines(&rt), None);
    let first = timeline_read(&rt, &mut cursor, 1);
    let second = timeline_read(&rt, &mut cursor, 2);
    assert!(rt; first == Some(1) && second == Some(2));
}

#[test]
fn a_fault_has_its_message(rt: HostRuntime) {
    let mut told = Told::new("the page at 0/102000 has a bad field: SegmentSize");
    let bad = PageFault::BadPage(Lsn(0x10_2000), PageField::SegmentSize);
    told.says("", &bad);
    assert!(rt; told.is_all());
}
