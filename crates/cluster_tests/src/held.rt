//! Rewinds that a target's mark holds: `READ | MARK | LINE, ..`, where the read of a number fails (none for 0), the mark has a
//! text as in stored.rt (`-` for no mark; OWN are the first lines of one for this source), and lines stand beside the
//! source's control file. Worked out by hand by the rules of docs/FORMATS.md.
use crate::controls::surveyed;
use crate::stored::spelled;
use crate::texts::{says, tell};
use crate::trees::{plan_of, put_all, put_file, root_of, tree_of};
use memory_tree::{FailingTree, MemoryTree};
use plan_text::StoredPlan;
use resume_core::{ResumeFault, stored_rewind};
use std::process::Abort;
use tree_lines::cut_at;

/// What is stored, and which marks are refused.
pub(crate) const MARKS: &str = "\
held 0 | - | - = nothing
held 0 | x | - = nothing
held 0 | pg_rewind 2;-; | - = nothing
held 0 | pg_rewind 2;-;source 95208C9A; | - = nothing
held 0 | pg_rewind 2;+; | - = nothing
held 0 | OWNTAIL | - = 95208C9A
held 0 | OWNfolder 62;cut 63 7;remove 64;TAIL | - = 95208C9A
held 0 | pg_rewind 1; | - = an unfinished run left t/pg_rewind.unfinished
held 0 | - | d t/pg_rewind.unfinished = an unfinished run left t/pg_rewind.unfinished
held 0 | - | l t/pg_rewind.unfinished = an unfinished run left t/pg_rewind.unfinished
held 0 | - | f t/pg_walreplay.unfinished 0 = an unfinished run left t/pg_walreplay.unfinished
held 0 | OWNTAIL | d t/pg_resetwal.unfinished = an unfinished run left t/pg_resetwal.unfinished
held 0 | OWNTAIL | f t/pg_resetwal.unfinished 0, l t/pg_walreplay.unfinished = an unfinished run \
    left t/pg_walreplay.unfinished
held 0 | pg_rewind 1; | f t/pg_walreplay.unfinished 0 = an unfinished run left \
    t/pg_rewind.unfinished
held 0 | - | f s/pg_rewind.unfinished 0 = an unfinished run left s/pg_rewind.unfinished
held 0 | OWNx;TAIL | d s/pg_resetwal.unfinished = an unfinished run left s/pg_resetwal.unfinished";

/// Plans and sources that are refused, in turn.
pub(crate) const SOURCES: &str = "\
held 0 | OWNx;TAIL | x s/global/pg_control = line 3 of the plan in the mark of t is at fault
held 0 | OWNlabel 61; | - = line 4 of the plan in the mark of t is at fault
held 0 | OWNwhole 77 5;TAIL | x s/global/pg_control = s has no control file
held 0 | pg_rewind 2;+;HEADwhole 77 5;TAIL | - = s/global/pg_control is not what the plan was made for
held 0 | OWNwhole 77 5;TAIL | r s/w w*5 = 95208C9A
held 0 | OWNwhole 77 5;TAIL | r s/w w*4 = s/w is not what the plan was made for
held 0 | OWNwhole 77 5;TAIL | r s/w w*6 = s/w is not what the plan was made for
held 0 | OWNwhole 77 0;TAIL | - = s/w is not what the plan was made for
held 0 | OWNwhole 77 0;TAIL | d s/w = s/w is not what the plan was made for
held 0 | OWNwhole 77 0;TAIL | l s/w = s/w is not what the plan was made for
held 0 | OWNrange 62 2 3;TAIL | r s/b b*5 = 95208C9A
held 0 | OWNrange 62 2 3;TAIL | r s/b b*9 = 95208C9A
held 0 | OWNrange 62 2 3;TAIL | r s/b b*4 = s/b is not what the plan was made for
held 0 | OWNrange 62 0 0;TAIL | - = s/b is not what the plan was made for
held 0 | OWNrange 62 2 3;whole 77 5;TAIL | r s/b b*5 = s/w is not what the plan was made for
held 0 | OWNrange 62 2 3;whole 77 5;TAIL | - = s/b is not what the plan was made for";

/// A read that fails: of the mark its kind, its size and its bytes, the other marks, those of the source, its control file
/// twice, and the size of a file.
pub(crate) const FAILING: &str = "\
held 1 | OWNwhole 77 5;TAIL | r s/w w*5 = a read failed
held 2 | OWNwhole 77 5;TAIL | r s/w w*5 = a read failed
held 3 | OWNwhole 77 5;TAIL | r s/w w*5 = a read failed
held 5 | OWNwhole 77 5;TAIL | r s/w w*5 = a read failed
held 8 | OWNwhole 77 5;TAIL | r s/w w*5 = a read failed
held 10 | OWNwhole 77 5;TAIL | r s/w w*5 = a read failed
held 12 | OWNwhole 77 5;TAIL | r s/w w*5 = a read failed
held 13 | OWNwhole 77 5;TAIL | r s/w w*5 = a read failed
held 14 | OWNwhole 77 5;TAIL | r s/w w*5 = 95208C9A";

/// The first lines of a complete mark, whose plan was made for the source.
const OWN: &str = "pg_rewind 2;+;source 95208C9A;told 1 0/1000A0 0/100028 1;";

/// A target with this mark, and the source, with lines beside them.
fn marked<R: AllocGlobal + Abort>(rt: &R, mark: &str, lines: &str) -> MemoryTree {
    let mut tree = tree_of(rt, "d t, d s, d s/global");
    put_file(rt, &mut tree, "s/global/pg_control", &surveyed(rt, "plain"));
    if mark != "-" {
        let text = mark.replace(rt.alloc(), "OWN", OWN).expect(rt, "no memory");
        let text = spelled(rt, &text);
        put_file(rt, &mut tree, "t/pg_rewind.unfinished", text.as_bytes());
    }
    put_all(rt, &mut tree, lines);
    tree
}

/// Tells what is stored, or why it isn't taken up.
fn tell_found<R: Abort>(rt: &R, out: &mut String, found: Result<Option<StoredPlan>, ResumeFault>) {
    match found {
        Ok(None) => tell(rt, out, "nothing"),
        Ok(Some(stored)) => write!(out, "{:08X}", stored.source).expect(rt, "no memory"),
        Err(fault) => says(rt, out, "", &fault),
    }
}

/// `READ | MARK | LINE, ..`; nothing may be changed.
pub(crate) fn tell_held<R: AllocGlobal + Abort>(rt: &R, out: &mut String, words: &str) {
    let (read, behind) = cut_at(words, " | ");
    let (mark, lines) = cut_at(behind, " | ");
    let tree = marked(rt, mark, lines);
    let before = tree.changes();
    let mut tree = FailingTree::new(tree, plan_of(rt, read));
    let (target, source) = (root_of(rt, "t"), root_of(rt, "s"));
    tell_found(
        rt,
        out,
        stored_rewind(rt.alloc(), &mut tree, &target, &source),
    );
    assert!(rt; tree.into_inner().changes() == before, "it was changed");
}
