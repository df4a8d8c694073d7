//! Rewinds done again by the plan of their mark. A row has lines that change what a stop left, where nothing under the mark was
//! done yet, and tells how the resume ended and what stands in the target then: `all` is all that is to be and no mark. Worked
//! out by hand from the steps, by the rules of docs/FORMATS.md.
ghost use Rattle.rewind_writes.specs.Steps.{AllAreFit};

use crate::texts::{number, says, tell, tell_runs};
use crate::trees::{path_of, put_all, root_of, tree_of};
use cluster_tree::{Kind, Path, Tree};
use memory_tree::{FailPlan, FailingTree, MemoryTree};
use plan_text::{MarkText, StoredPlan, mark_text, stored_plan};
use resumed_writes::{StoredPerformFault, perform_stored};
use rewind_writes::{Plan, perform};
use std::process::Abort;
use tree_lines::cut_at;

/// From what a stop left behind each of its steps, with what a stop may leave of the next ones, it ends alike.
pub(crate) const ENDS: &str = "\
resume - = done: all
# the folder, and the whole file: empty, begun, A5 throughout, of other bytes and lengths, as it is to be
resume d t/d = done: all
resume d t/d, r t/d/w - = done: all
resume d t/d, r t/d/w w*2 = done: all
resume d t/d, r t/d/w ?*5 = done: all
resume d t/d, r t/d/w o*9 = done: all
resume d t/d, r t/d/w w*5 = done: all
# the file that is cut: longer, and behind the cut, with A5 in the range and without
resume x t/c, r t/c o*9 = done: all
resume x t/c, r t/c o*4 = done: all
resume x t/c, r t/c o*2 ?*2 = done: all
resume x t/c, r t/c o*2 ?*6 = done: all
resume x t/c, r t/c o*2 s*3 ?*3 = done: all
resume x t/c, r t/c o*2 s*6 = done: all
# what is removed
resume x t/r/x = done: all
resume x t/r/x, x t/r = done: all
# the label: empty, shorter, longer, A5 throughout
resume r t/backup_label - = done: all
resume r t/backup_label L*2 = done: all
resume r t/backup_label o*9 = done: all
resume r t/backup_label ?*5 = done: all
# the control file half written, and A5 throughout
resume x t/global/pg_control, r t/global/pg_control N*4096 O*4096 = done: all
resume x t/global/pg_control, r t/global/pg_control ?*8192 = done: all
# all of it at once
resume d t/d, r t/d/w w*5, x t/c, r t/c o*2 s*6, x t/r/x, x t/r, r t/backup_label L*5, x \
    t/global/pg_control, r t/global/pg_control N*8192 = done: all
# a source that is longer
resume x s/d/w, r s/d/w w*9, x s/c, r s/c s*9 = done: all
# bytes that no step writes stay
resume x t/c, r t/c ?*6 = done: d /, w w*5, c ?*2 s*6, label L*5, control N*8192";

/// The target refuses a change: what was changed before stands, and the mark.
pub(crate) const DIFFERING: &str = "\
# a folder, a file or a link where another entry is to be
resume r t/d o*1 = t/d isn't what the plan changes: d o*1, c o*6, r /, x x*3, control O*8192, mark m*1
resume d t/d, d t/d/w = t/d/w isn't what the plan changes: d /, w /, c o*6, r /, x x*3, control \
    O*8192, mark m*1
resume d t/d, l t/d/w = t/d/w isn't what the plan changes: d /, w link, c o*6, r /, x x*3, control \
    O*8192, mark m*1
# the file that is cut: gone, too short, a folder
resume x t/c = t/c isn't what the plan changes: d /, w w*5, r /, x x*3, control O*8192, mark m*1
resume x t/c, r t/c o*3 = t/c isn't what the plan changes: d /, w w*5, c o*3, r /, x x*3, control \
    O*8192, mark m*1
resume x t/c, d t/c = t/c isn't what the plan changes: d /, w w*5, c /, r /, x x*3, control O*8192, \
    mark m*1
# a folder that isn't empty
resume r t/r/y y*1 = t/r isn't what the plan changes: d /, w w*5, c o*2 s*6, r /, control O*8192, \
    mark m*1
# the label, the control file and the mark
resume d t/backup_label = t/backup_label isn't what the plan changes: d /, w w*5, c o*2 s*6, label \
    /, control O*8192, mark m*1
resume x t/global/pg_control = t/global/pg_control isn't what the plan changes: d /, w w*5, c o*2 \
    s*6, label L*5, mark m*1
resume x t/pg_rewind.unfinished = t/pg_rewind.unfinished isn't what the plan changes: all";

/// A file of the source is gone or shorter, which is told before its step.
pub(crate) const CHANGED: &str = "\
resume x s/d/w = s/d/w was changed meanwhile: d /, c o*6, r /, x x*3, control O*8192, mark m*1
resume x s/d/w, r s/d/w w*4, d t/d, r t/d/w o*9 = s/d/w was changed meanwhile: d /, w o*9, c o*6, r \
    /, x x*3, control O*8192, mark m*1
resume x s/c = s/c was changed meanwhile: d /, w w*5, c o*4, r /, x x*3, control O*8192, mark m*1
resume x s/c, r s/c s*7 = s/c was changed meanwhile: d /, w w*5, c o*4, r /, x x*3, control O*8192, \
    mark m*1
resume x s/c, d s/c = s/c was changed meanwhile: d /, w w*5, c o*4, r /, x x*3, control O*8192, mark \
    m*1";

/// Files of blocks, of which blocks 1 and 3 are copied; the first row's target was left with A5 throughout its last block.
pub(crate) const BLOCKS: &str = "\
blocks r s/b p*8192 q*8192 r*8192 s*8192, r t/b a*8192 b*8192 c*8192 ?*8192 = done: c o*6, r /, x \
    x*3, b a*8192 q*8192 c*8192 s*8192, label L*5, control N*8192
blocks r s/b p*8192 q*8192 r*8192 s*8192, r t/b a*8192 b*8192 c*8192 = done: c o*6, r /, x x*3, b \
    a*8192 q*8192 c*8192 s*8192, label L*5, control N*8192
blocks r s/b p*8192 q*8192 r*8192 s*8192 = t/b isn't what the plan changes: c o*6, r /, x x*3, \
    control O*8192, mark m*1
blocks r s/b p*8192 q*8192 r*8192 s*8192, r t/b a*8191 = t/b isn't what the plan changes: c o*6, r \
    /, x x*3, b a*8191, control O*8192, mark m*1
blocks r s/b p*8192 q*8192 r*8192 s*8192, r t/b a*8192 b*8192 c*8191 = t/b isn't what the plan \
    changes: c o*6, r /, x x*3, b a*8192 q*8192 c*8191, control O*8192, mark m*1
blocks r s/b p*8192 q*8192 r*8192 s*8191, r t/b a*8192 b*8192 c*8192 ?*8192 = s/b was changed \
    meanwhile: c o*6, r /, x x*3, b a*8192 q*8192 c*8192 ?*8192, control O*8192, mark m*1";

/// The first and the last call of the device that fails, and behind the last none.
pub(crate) const FAILS: &str = "\
fails 1 1 = a write failed: c o*6, r /, x x*3, control O*8192, mark m*1
# the folder
fails 2 2 = a read failed: c o*6, r /, x x*3, control O*8192, mark m*1
fails 3 3 = a write failed: c o*6, r /, x x*3, control O*8192, mark m*1
# the whole file: the source's size, the kind, the file, the target's size, the bytes
fails 4 5 = a read failed: d /, c o*6, r /, x x*3, control O*8192, mark m*1
fails 6 6 = a write failed: d /, c o*6, r /, x x*3, control O*8192, mark m*1
fails 7 8 = a read failed: d /, w -, c o*6, r /, x x*3, control O*8192, mark m*1
fails 9 9 = a write failed: d /, w -, c o*6, r /, x x*3, control O*8192, mark m*1
# the cut, and the range: both sizes, the bytes
fails 10 10 = a write failed: d /, w w*5, c o*6, r /, x x*3, control O*8192, mark m*1
fails 11 13 = a read failed: d /, w w*5, c o*4, r /, x x*3, control O*8192, mark m*1
fails 14 14 = a write failed: d /, w w*5, c o*4, r /, x x*3, control O*8192, mark m*1
# what is removed
fails 15 15 = a read failed: d /, w w*5, c o*2 s*6, r /, x x*3, control O*8192, mark m*1
fails 16 16 = a write failed: d /, w w*5, c o*2 s*6, r /, x x*3, control O*8192, mark m*1
fails 17 17 = a read failed: d /, w w*5, c o*2 s*6, r /, control O*8192, mark m*1
fails 18 18 = a write failed: d /, w w*5, c o*2 s*6, r /, control O*8192, mark m*1
# the label, the control file, and the mark's end between two syncs
fails 19 19 = a read failed: d /, w w*5, c o*2 s*6, control O*8192, mark m*1
fails 20 20 = a write failed: d /, w w*5, c o*2 s*6, control O*8192, mark m*1
fails 21 21 = a write failed: d /, w w*5, c o*2 s*6, label -, control O*8192, mark m*1
fails 22 22 = a write failed: d /, w w*5, c o*2 s*6, label L*5, control O*8192, mark m*1
fails 23 24 = a write failed: d /, w w*5, c o*2 s*6, label L*5, control N*8192, mark m*1
fails 25 25 = a write failed: all
fails 26 26 = done: all";

/// The first run breaks off at each of its calls behind the mark's last sync, and a stop leaves what was synced (0), what stands (1)
/// or that with A5 in what was written since (2): the resume, by the plan that the mark holds, ends it.
pub(crate) const STOPS: &str = "\
stop 9 23 0 = done: all
stop 9 23 1 = done: all
stop 9 23 2 = done: all
stop 24 24 0 = done: all";

/// The steps of most rows: folder `d`, the whole file `d/w` of 5 bytes, a cut of `c` to 4 bytes, its range of 6 bytes from 2 on,
/// and `r/x` and `r` removed.
const STEPS: &str = "folder 64\nwhole 642f77 5\ncut 63 4\nrange 63 2 6\nremove 722f78\nremove 72\n";

/// Blocks 1 and 3 of `b`.
const TWO_BLOCKS: &str = "range 62 8192 8192\nrange 62 24576 8192\n";

/// The source, and the target with nothing done, without its mark.
const START: &str = "\
d s, d s/d, r s/d/w w*5, r s/c s*8, d t, d t/global, r t/global/pg_control O*8192, r t/c o*6, d \
    t/r, r t/r/x x*3";

/// What stands at the end of the steps.
const ENDED: &str = "d /, w w*5, c o*2 s*6, label L*5, control N*8192";

/// What is told of the target, by the names it has here.
const NAMES: &str = "\
d t/d
w t/d/w
c t/c
r t/r
x t/r/x
b t/b
label t/backup_label
control t/global/pg_control
mark t/pg_rewind.unfinished";

/// The text of a plan of these steps.
fn text_of<R: AllocGlobal + Abort>(rt: &R, steps: &str) -> String {
    let control = "4e".repeat(rt.alloc(), 8192).expect(rt, "no memory");
    let head = "source 0012ABEF\ntold 1 0/1000A0 0/100028 1";
    format!(in rt.alloc(); "{head}\n{steps}label 4c4c4c4c4c\ncontrol {control}\nend\n").expect(
        rt,
        "no memory",
    )
}

/// The plan that a text says.
fn said_plan<R: AllocGlobal + Abort>(rt: &R, text: &[u8]) -> Plan
    ensures { AllAreFit result.steps.items }
{
    let (target, source) = (root_of(rt, "t"), root_of(rt, "s"));
    match stored_plan(rt.alloc(), &target, &source, text) {
        Ok(StoredPlan { plan, .. }) => plan,
        Err(_) => panic!(rt; "no plan"),
    }
}

/// The plan of these steps.
fn plan_of<R: AllocGlobal + Abort>(rt: &R, steps: &str) -> Plan
    ensures { AllAreFit result.steps.items }
{
    said_plan(rt, text_of(rt, steps).as_bytes())
}

/// The bytes of a file.
fn bytes_at<R: AllocGlobal + Abort>(rt: &R, tree: &mut MemoryTree, path: &Path) -> Vec<u8> {
    let size = tree.size(path).expect(rt, "no size") as usize;
    let mut bytes = vec![in rt.alloc(); 0; size].expect(rt, "no memory");
    tree.read_at(path, 0, &mut bytes).expect(rt, "no bytes");
    bytes
}

/// Tells what stands at a path by its name, where something does.
fn tell_entry<R: AllocGlobal + Abort>(
    rt: &R,
    out: &mut String,
    tree: &mut MemoryTree,
    name: &str,
    path: &Path,
) {
    let kind = tree.kind(path);
    if kind == Ok(Kind::Absent) {
        return;
    }
    let before = if out.is_empty() { "" } else { ", " };
    says(rt, out, before, &name);
    match kind {
        Ok(Kind::File) => tell_runs(rt, out, &bytes_at(rt, tree, path)),
        Ok(_) => tell(rt, out, " /"),
        Err(_) => tell(rt, out, " link"),
    }
}

/// Tells what stands in the target.
fn tell_standing<R: AllocGlobal + Abort>(rt: &R, out: &mut String, tree: &mut MemoryTree) {
    let mut standing = String::new(rt.alloc());
    for line in NAMES.split('\n') {
        let (name, path) = cut_at(line, " ");
        tell_entry(rt, &mut standing, tree, name, &path_of(rt, path));
    }
    let all = standing.as_str() == ENDED;
    tell(rt, out, if all { "all" } else { standing.as_str() });
}

/// Tells how a resume ended.
fn tell_done<R: Abort>(rt: &R, out: &mut String, done: Result<(), StoredPerformFault>) {
    match done {
        Ok(()) => tell(rt, out, "done: "),
        Err(fault) => write!(out, "{fault}: ").expect(rt, "no memory"),
    }
}

/// Tells how a resume by this plan ends in a tree, and what stands then.
fn tell_resume<R: AllocGlobal + Abort>(
    rt: &R,
    out: &mut String,
    tree: MemoryTree,
    plan: Plan,
    fails: FailPlan,
)
    requires fit { AllAreFit plan.steps.items }
{
    let mut tree = FailingTree::new(tree, fails);
    let done = perform_stored(&mut tree, plan);
    tell_done(rt, out, done);
    tell_standing(rt, out, &mut tree.into_inner());
}

/// What a stop left that these lines change, with its mark.
fn left<R: AllocGlobal + Abort>(rt: &R, lines: &str) -> MemoryTree {
    let mut tree = tree_of(rt, START);
    put_all(rt, &mut tree, "r t/pg_rewind.unfinished m*1");
    put_all(rt, &mut tree, lines);
    tree
}

/// Tells how a resume by these steps ends in what these lines change, and what stands then.
fn tell_left<R: AllocGlobal + Abort>(rt: &R, out: &mut String, lines: &str, steps: &str) {
    let plan = plan_of(rt, steps);
    tell_resume(rt, out, left(rt, lines), plan, FailPlan::Never);
}

/// An image of what the first run leaves whose call of a number fails.
fn stopped<R: AllocGlobal + Abort>(rt: &R, call: u32, image: u32) -> MemoryTree {
    let fails = FailPlan::At(u64::from(call));
    let mut tree = FailingTree::new(tree_of(rt, START), fails);
    let text = text_of(rt, STEPS);
    let done = perform(&mut tree, plan_of(rt, STEPS), text.as_bytes());
    assert!(rt; done.is_err(), "it was done");
    let choice = u8::try_from(image).expect(rt, "no image");
    tree.into_inner()
        .image(rt.alloc(), choice)
        .expect(rt, "no memory")
}

/// The plan that the mark of a target holds.
fn marked_plan<R: AllocGlobal + Abort>(rt: &R, tree: &mut MemoryTree) -> Plan
    ensures { AllAreFit result.steps.items }
{
    let bytes = bytes_at(rt, tree, &path_of(rt, "t/pg_rewind.unfinished"));
    match (mark_text(&bytes), bytes.get(14..)) {
        (MarkText::Complete, Some(text)) => said_plan(rt, text),
        _ => panic!(rt; "the mark isn't complete"),
    }
}

/// Tells of one call.
fn tell_call<R: AllocGlobal + Abort>(rt: &R, out: &mut String, image: &str, call: u32) {
    if image.is_empty() {
        let fails = FailPlan::At(u64::from(call));
        tell_resume(rt, out, left(rt, "-"), plan_of(rt, STEPS), fails);
    } else {
        let mut tree = stopped(rt, call, number(rt, image));
        let plan = marked_plan(rt, &mut tree);
        tell_resume(rt, out, tree, plan, FailPlan::Never);
    }
}

/// Whether the same is told of a call.
fn is_told<R: AllocGlobal + Abort>(rt: &R, told: &str, image: &str, call: u32) -> bool {
    let mut out = String::new(rt.alloc());
    tell_call(rt, &mut out, image, call);
    out.as_str() == told
}

/// `FIRST LAST`, or with an image behind: what is told of each call, which has to be the same.
fn tell_calls<R: AllocGlobal + Abort>(rt: &R, out: &mut String, words: &str) {
    let (first, behind) = cut_at(words, " ");
    let (last, image) = cut_at(behind, " ");
    let (first, last) = (number(rt, first), number(rt, last));
    tell_call(rt, out, image, last);
    for other in first..last {
        if !is_told(rt, out.as_str(), image, other) {
            return says(rt, out, ", but not of ", &other);
        }
    }
}

/// `resume LINE, ..`, `blocks LINE, ..`, `fails FIRST LAST` or `stop FIRST LAST IMAGE`.
pub(crate) fn tell_resumes<R: AllocGlobal + Abort>(
    rt: &R,
    out: &mut String,
    verb: &str,
    words: &str,
) {
    match verb {
        "resume" => tell_left(rt, out, words, STEPS),
        "blocks" => tell_left(rt, out, words, TWO_BLOCKS),
        _ => tell_calls(rt, out, words),
    }
}
