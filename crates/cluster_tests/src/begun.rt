//! What the mark of a replay tells: `begun READ | MARK | LINE, ..`, where the read of a number fails (none for 0), the mark has a text as
//! in lists.rt (`-` for no mark; LIST are the lines of a list of two files that have copies), and lines stand beside it. Worked
//! out by hand by the rules of docs/FORMATS.md; the digits of paths come from a script of its own.
use crate::lists::{spelled, tell_each};
use crate::texts::{says, tell};
use crate::trees::{plan_of, put_all, put_file, root_of, tree_of};
use memory_tree::{FailingTree, MemoryTree};
use std::process::Abort;
use stored_replay::{StoredReplay, StoredReplayFault, stored_replay};
use tree_lines::cut_at;

/// What a mark is, and which one is refused first.
pub(crate) const MARKS: &str = "\
begun 0 | - | - = none
begun 0 | x | - = none
begun 0 | pg_walreplay 2;--;end; | - = none
begun 0 | pg_walreplay 2;-+;end; | - = none
begun 0 | pg_walreplay 2;+-; | - = none
begun 0 | pg_walreplay 2;+-;end; | - = begun: 
begun 0 | pg_walreplay 2;++;end; | - = had ended
begun 0 | pg_walreplay 1; | - = an unfinished run left t/pg_walreplay.unfinished
begun 0 | - | d t/pg_walreplay.unfinished = an unfinished run left t/pg_walreplay.unfinished
begun 0 | - | l t/pg_walreplay.unfinished = an unfinished run left t/pg_walreplay.unfinished
begun 0 | - | f t/pg_rewind.unfinished 0 = an unfinished run left t/pg_rewind.unfinished
begun 0 | - | l t/pg_resetwal.unfinished = an unfinished run left t/pg_resetwal.unfinished
begun 0 | pg_walreplay 1; | f t/pg_rewind.unfinished 0 = an unfinished run left t/pg_rewind.unfinished
begun 0 | pg_walreplay 1; | f t/pg_resetwal.unfinished 0 = an unfinished run left t/pg_walreplay.unfinished
begun 0 | pg_walreplay 2;+-;x; | d t/pg_resetwal.unfinished = an unfinished run left t/pg_resetwal.unfinished
begun 0 | pg_walreplay 2;++;end; | f t/pg_rewind.unfinished 0 = an unfinished run left t/pg_rewind.unfinished";

/// Lists that are refused, and copies.
pub(crate) const COPIES: &str = "\
begun 0 | pg_walreplay 2;+-;x; | - = line 1 of the list in the mark of t is at fault
begun 0 | pg_walreplay 2;++;x; | - = line 1 of the list in the mark of t is at fault
begun 0 | pg_walreplay 2;+-;LISTen; | - = line 5 of the list in the mark of t is at fault
begun 0 | pg_walreplay 2;+-;LISTend; | d t/pg_walreplay.shadow, f t/pg_walreplay.shadow/0 5, f t/pg_walreplay.shadow/1 3 = \
    begun: file t/backup_label 5, folder t/base, page t/base/x 8192, file t/global/y 3
begun 0 | pg_walreplay 2;+-;LISTend; | - = t/pg_walreplay.shadow/0 is not the copy that the mark tells of
begun 0 | pg_walreplay 2;+-;LISTend; | d t/pg_walreplay.shadow, f t/pg_walreplay.shadow/0 5 = \
    t/pg_walreplay.shadow/1 is not the copy that the mark tells of
begun 0 | pg_walreplay 2;+-;LISTend; | d t/pg_walreplay.shadow, f t/pg_walreplay.shadow/0 4, f t/pg_walreplay.shadow/1 4 = \
    t/pg_walreplay.shadow/0 is not the copy that the mark tells of
begun 0 | pg_walreplay 2;+-;LISTend; | d t/pg_walreplay.shadow, f t/pg_walreplay.shadow/0 6, f t/pg_walreplay.shadow/1 3 = \
    t/pg_walreplay.shadow/0 is not the copy that the mark tells of
begun 0 | pg_walreplay 2;+-;LISTend; | d t/pg_walreplay.shadow, l t/pg_walreplay.shadow/0, f t/pg_walreplay.shadow/1 3 = \
    t/pg_walreplay.shadow/0 is not the copy that the mark tells of
begun 0 | pg_walreplay 2;+-;LISTend; | d t/pg_walreplay.shadow, f t/pg_walreplay.shadow/0 5, d t/pg_walreplay.shadow/1 = \
    t/pg_walreplay.shadow/1 is not the copy that the mark tells of
begun 0 | pg_walreplay 2;++;LISTend; | - = had ended";

/// A read that fails: of the mark its size and its bytes, of each mark its kind, and of each copy its size.
pub(crate) const FAILING: &str = "\
begun 1 | - | - = a read failed
begun 4 | - | - = a read failed
begun 5 | - | - = none
begun 1 | pg_walreplay 2;+-;LISTend; | d t/pg_walreplay.shadow = a read failed
begun 2 | pg_walreplay 2;+-;LISTend; | d t/pg_walreplay.shadow = a read failed
begun 3 | pg_walreplay 2;+-;LISTend; | d t/pg_walreplay.shadow = a read failed
begun 4 | pg_walreplay 2;+-;LISTend; | d t/pg_walreplay.shadow = a read failed
begun 5 | pg_walreplay 2;+-;LISTend; | d t/pg_walreplay.shadow = a read failed
begun 6 | pg_walreplay 2;+-;LISTend; | d t/pg_walreplay.shadow, f t/pg_walreplay.shadow/0 5 = a read failed
begun 7 | pg_walreplay 2;+-;LISTend; | d t/pg_walreplay.shadow, f t/pg_walreplay.shadow/0 5 = a read failed
begun 7 | pg_walreplay 2;+-;LISTend; | d t/pg_walreplay.shadow = t/pg_walreplay.shadow/0 is not the copy that the mark tells of";

/// The label, a folder, a file of a main fork and another file.
const LIST: &str =
    "file 6261636b75705f6c6162656c 5 0;folder 62617365;page 626173652f78 8192;file 676c6f62616c2f79 3 1;";

/// A cluster with this mark, and lines beside it.
fn marked<R: AllocGlobal + Abort>(rt: &R, mark: &str, lines: &str) -> MemoryTree {
    let mut tree = tree_of(rt, "d t");
    if mark != "-" {
        let text = mark
            .replace(rt.alloc(), "LIST", LIST)
            .expect(rt, "no memory");
        let text = spelled(rt, &text);
        put_file(rt, &mut tree, "t/pg_walreplay.unfinished", text.as_bytes());
    }
    put_all(rt, &mut tree, lines);
    tree
}

/// Tells what is told, or why it isn't taken up.
fn tell_told<R: Abort>(rt: &R, out: &mut String, told: Result<StoredReplay, StoredReplayFault>) {
    match told {
        Ok(StoredReplay::NotBegun) => tell(rt, out, "none"),
        Ok(StoredReplay::Begun(listed)) => {
            tell(rt, out, "begun: ");
            tell_each(rt, out, &listed);
        }
        Ok(StoredReplay::HadEnded) => tell(rt, out, "had ended"),
        Err(fault) => says(rt, out, "", &fault),
    }
}

/// `READ | MARK | LINE, ..`; nothing may be changed.
pub(crate) fn tell_begun<R: AllocGlobal + Abort>(rt: &R, out: &mut String, words: &str) {
    let (read, behind) = cut_at(words, " | ");
    let (mark, lines) = cut_at(behind, " | ");
    let tree = marked(rt, mark, lines);
    let before = tree.changes();
    let mut tree = FailingTree::new(tree, plan_of(rt, read));
    let root = root_of(rt, "t");
    tell_told(rt, out, stored_replay(rt.alloc(), &mut tree, &root));
    assert!(rt; tree.into_inner().changes() == before, "it was changed");
}
