// A mark that holds a text: laid from what stood there before, and broken off at each of its calls. The
// bytes and the number of calls are those of docs/DECISIONS.md, "A mark that holds its plan".
use crate::texts::path_of;
use crate::trees::{bytes_in, small_tree};
use cluster_tree::{Kind, Path, Tree};
use gated_marks::{begin_gated, lay_head, lay_text, open_gate};
use marked_runs::StepFault;
use memory_tree::{FailPlan, FailingTree, MemoryTree};
use std::process::Abort;

const HEAD: &[u8] = b"pg_rewind 2\n-\n";

const TEXT: &[u8] = b"the plan\n";

const WHOLE: &[u8] = b"pg_rewind 2\n+\nthe plan\n";

/// A tree with these bytes at the mark, synced; where there are none nothing stands there.
fn tree_with<R: AllocGlobal + Abort>(rt: &R, mark: &Path, bytes: &[u8]) -> MemoryTree {
    let mut tree = small_tree(rt);
    if !bytes.is_empty() {
        tree.make_file(mark).expect(rt, "no file");
        tree.write_at(mark, 0, bytes).expect(rt, "no bytes");
    }
    tree.sync().expect(rt, "no sync");
    tree
}

/// Whether an image has a mark that reads as complete; that one is the whole one.
fn is_whole<R: AllocGlobal + Abort>(rt: &R, tree: &MemoryTree, mark: &Path, choice: u8) -> bool {
    let mut image = tree.image(rt.alloc(), choice).expect(rt, "no memory");
    let other = bytes_in(rt, &mut image, &path_of(rt, "t/f"));
    assert!(rt; other.as_slice() == b"hello".as_slice(), "{choice}");
    if image.kind(mark) != Ok(Kind::File) {
        return false;
    }
    let found = bytes_in(rt, &mut image, mark);
    let is_complete = found.len() > HEAD.len() && found.starts_with(b"pg_rewind 2\n+");
    assert!(rt; !is_complete || found.as_slice() == WHOLE, "{choice}");
    is_complete
}

/// Lays a mark over these bytes, where each call from a number on fails; whether it is done, and then
/// whole in each image.
fn is_laid<R: AllocGlobal + Abort>(rt: &R, mark: &Path, bytes: &[u8], call: u64) -> bool {
    let mut tree = FailingTree::new(tree_with(rt, mark, bytes), FailPlan::From(call));
    let done = begin_gated(&mut tree, mark, HEAD, 12, TEXT).is_ok();
    let tree = tree.into_inner();
    for choice in 0..3 {
        let whole = is_whole(rt, &tree, mark, choice);
        assert!(rt; whole || !done, "{call} {choice}");
    }
    done
}

/// A mark over these bytes takes so many calls.
fn check_calls<R: AllocGlobal + Abort>(rt: &R, bytes: &[u8], calls: u64) {
    let mark = path_of(rt, "t/m");
    for call in 1..11 {
        assert!(rt; is_laid(rt, &mark, bytes, call) == (call > calls), "{call}");
    }
}

#[test]
fn a_mark_is_open_over_its_whole_text_alone(rt: HostRuntime) {
    check_calls(&rt, b"", 8);
    check_calls(&rt, b"pg_rew", 9);
    check_calls(&rt, b"pg_rewind 1\n", 9);
    check_calls(&rt, b"pg_rewind 2\n-\nleft of a plan", 9);
}

#[test]
fn a_mark_is_laid_step_by_step(rt: HostRuntime) {
    let (mark, link) = (path_of(&rt, "t/m"), path_of(&rt, "t/l"));
    let mut tree = tree_with(&rt, &mark, b"");
    let other = lay_head(&mut tree, &link, HEAD);
    assert!(&rt; other == Err(StepFault::Contradicted));
    let laid = (
        lay_head(&mut tree, &mark, HEAD),
        lay_text(&mut tree, &mark, 14, TEXT),
        lay_text(&mut tree, &mark, 14, b""),
        open_gate(&mut tree, &mark, 12),
    );
    assert!(&rt; laid == (Ok(()), Ok(()), Ok(()), Ok(())));
    assert!(&rt; bytes_in(&rt, &mut tree, &mark).as_slice() == WHOLE);
    let past = open_gate(&mut tree, &mark, 99);
    assert!(&rt; past == Err(StepFault::Contradicted));
    assert!(&rt; bytes_in(&rt, &mut tree, &mark).as_slice() == WHOLE);
}
