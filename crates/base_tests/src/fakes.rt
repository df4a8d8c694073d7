// The expected values follow from the plans.
use crate::callers::{VERBS, ended, rewrite};
use crate::texts::path_of;
use crate::trees::small_tree;
use cluster_tree::{FileFault, PathFault, Sink, SinkFailed, Tree, TreeFault};
use memory_tree::{FailPlan, FailingTree, MemorySink};
use std::process::Abort;

// The first call of a kind fails by the plan, and the second doesn't.
fn check_fails_once<R: AllocGlobal + Abort>(rt: &R, verb: &str) {
    let file = path_of(rt, "t/f");
    let mut tree = FailingTree::new(small_tree(rt), FailPlan::At(1));
    let first = ended(rt, &mut tree, verb, &file);
    let second = ended(rt, &mut tree, verb, &file);
    let failed = Err(TreeFault::Failed);
    assert!(rt;
        (first == failed, second == failed) == (true, false),
        "{verb}"
    );
}

#[test]
fn a_failing_tree_fails_each_kind_of_call(rt: HostRuntime) {
    for verb in VERBS.split(' ') {
        check_fails_once(&rt, verb);
    }
}

#[test]
fn a_write_that_fails_in_mid_run_leaves_what_was_done(rt: HostRuntime) {
    let file = path_of(&rt, "t/f");
    let tree = small_tree(&rt);
    let changes = tree.changes();
    let mut tree = FailingTree::new(tree, FailPlan::From(2));
    let end = rewrite(&mut tree, &file, b"new");
    let mut tree = tree.into_inner();
    let made = tree.changes().checked_sub(changes);
    let failed = Err(TreeFault::Failed);
    assert!(rt; (end, tree.size(&file), made) == (failed, Ok(0), Some(1)));
}

#[test]
fn a_sink_fails_by_its_plan(rt: HostRuntime) {
    let mut sink = MemorySink::new(rt.alloc(), FailPlan::At(2));
    let one = sink.write(b"one");
    let two = sink.write(b" two");
    let three = sink.write(b" three");
    let told = format!(in rt.alloc(); "{one:?} {two:?} {three:?} ").expect(&rt, "no memory");
    assert!(rt; told.as_str() == "Ok(()) Err(SinkFailed) Ok(()) ");
    assert!(rt; sink.bytes() == b"one three".as_slice());
}

pub(crate) const MARKS: &str = "\
mark pg_rewind.finished = None
mark pg_resetwal.unfinished = Some(2)
mark pg_walreplay.unfinished = Some(1)
mark pg_rewind.unfinished = Some(0)
mark_path 1 = t/pg_walreplay.unfinished";

#[test]
fn faults_have_messages(rt: HostRuntime) {
    let changed = FileFault::Changed(path_of(&rt, "t/f"));
    let text = format!(in rt.alloc();
        "{changed}, {}, {}, {}",
        PathFault::TooDeep,
        TreeFault::Failed,
        SinkFailed
    )
    .expect(&rt, "no memory");
    let expected =
        "t/f was changed meanwhile, a path has more than 64 parts, the device failed, a write failed";
    assert!(rt; text.as_str() == expected);
}
