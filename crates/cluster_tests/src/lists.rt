//! Lists in the marks of replays as texts, worked out by hand by the rules of docs/FORMATS.md; the digits of paths come from a
//! script of its own. In rows the end of a line is written as `;`.
use crate::texts::{number, says, tell};
use crate::trees::path_of;
use replay_list::{ListFault, Listed, ReplayMark, list_text, replay_mark, stored_list};
use std::process::Abort;
use tree_lines::cut_at;

/// What the bytes of a mark tell.
pub(crate) const KINDS: &str = "\
replay  = not complete
replay pg_walreplay 1; = version 1
replay pg_walreplay 1 = not complete
replay pg_walreplay 1;; = not complete
replay pg_walreplay 1;+-;e = not complete
replay pg_walreplay 2; = not complete
replay pg_walreplay 2;--; = not complete
replay pg_walreplay 2;+-; = not complete
replay pg_walreplay 2;++; = not complete
replay pg_walreplay 2;--;e = not complete
replay pg_walreplay 2;-+;e = not complete
replay pg_walreplay 2;+-;e = complete
replay pg_walreplay 2;++;e = ended
replay pg_walreplay 2;x+;e = not complete
replay pg_walreplay 2;+x;e = complete
replay pg_walreplay 2;+-xe = complete
replay pg_walreplay 2;++;end; = ended
replay pg_walreplay 3;++;e = not complete
replay pg_walreplay 2+;-;e = not complete
replay  pg_walreplay 2;+-;e = not complete";

/// Lists that are read, and written as the same text.
pub(crate) const TAKEN: &str = "\
listed /x/t | end; = : again
listed /x/t | file 6261636b75705f6c6162656c 229 0;folder 62617365;folder 626173652f35;page \
    626173652f352f3136333834 16384;file 626173652f352f31363338345f66736d 24576 1;folder 676c6f62616c;page \
    676c6f62616c2f31323632 8192;file 676c6f62616c2f70675f636f6e74726f6c 8192 2;folder \
    70675f6d756c746978616374;folder 70675f78616374;file 70675f786163742f30303030 8192 3;end; = file \
    /x/t/backup_label 229, folder /x/t/base, folder /x/t/base/5, page /x/t/base/5/16384 16384, file \
    /x/t/base/5/16384_fsm 24576, folder /x/t/global, page /x/t/global/1262 8192, file \
    /x/t/global/pg_control 8192, folder /x/t/pg_multixact, folder /x/t/pg_xact, file /x/t/pg_xact/0000 \
    8192: again
listed . | folder 626173652f61;folder 626173652f612d62;page 626173652f612f78 0;page 626173652fc3a9 \
    18446744073709551615;file 676c6f62616c2f782079 0 0;end; = folder base/a, folder base/a-b, page base/a/x \
    0, page base/é 18446744073709551615, file global/x y 0: again
listed / | page 6261636b75705f6c6162656c 1;file 62617365 2 0;end; = page /backup_label 1, file /base 2: again";

/// Lines of another form, and texts that end elsewhere.
pub(crate) const FORMS: &str = "\
listed t |  = line 1
listed t | end = line 1
listed t | end ; = line 1
listed t | ;end; = line 1
listed t | End; = line 1
listed t | end;; = line 2
listed t | end;end; = line 2
listed t | end;x = line 2
listed t | folder 62617365; = line 2
listed t | folder 62617365 = line 1
listed t | folder 62617365;end = line 2
listed t | folder 62617365;end;end; = line 3
listed t | folder 6261736;end; = line 1
listed t | folder 626173652F6F;end; = line 1
listed t | folder ;end; = line 1
listed t | folder;end; = line 1
listed t | folder  62617365;end; = line 1
listed t | folder 62617365 ;end; = line 1
listed t | folder 62617365 0;end; = line 1
listed t | Folder 62617365;end; = line 1
listed t | link 62617365;end; = line 1
listed t | page 626173652f31;end; = line 1
listed t | page 626173652f31 08192;end; = line 1
listed t | page 626173652f31 +1;end; = line 1
listed t | page 626173652f31 18446744073709551616;end; = line 1
listed t | page 626173652f31 8192 0;end; = line 1
listed t | file 626173652f31 1;end; = line 1
listed t | file 626173652f31 01 0;end; = line 1
listed t | file 626173652f31 1 00;end; = line 1
listed t | file 626173652f31 1 1;end; = line 1
listed t | file 626173652f31 1 18446744073709551616;end; = line 1
listed t | file 626173652f31 1 0 0;end; = line 1
listed t | file 626173652f31 1 0;file 626173652f32 1 0;end; = line 2
listed t | file 626173652f31 1 0;file 626173652f32 1 2;end; = line 2
listed t | folder 62617365;file 626173652f31 1 1;end; = line 2
listed t | page 626173652f31 1;file 626173652f32 1 1;end; = line 2
listed t | folder 62617365;;end; = line 2";

/// Paths out of order and paths that are not listed; and folders of so many parts below a root.
pub(crate) const PATHS: &str = "\
listed t | folder 676c6f62616c;folder 62617365;end; = line 2
listed t | folder 62617365;folder 62617365;end; = line 2
listed t | folder 62617365;page 62617365 1;end; = line 2
listed t | page 626173652f31 1;folder 62617365;end; = line 2
listed t | folder 626173652f61;page 626173652f612f78 0;folder 626173652f612d62;end; = line 3
listed t | folder 70675f77616c2f78;end; = line 1
listed t | folder 6261736562616c6c2f78;end; = line 1
listed t | folder 70675f77616c7265706c61792e756e66696e6973686564;end; = line 1
listed t | folder 70675f786163742e6f6c64;end; = line 1
listed t | folder 6261636b75705f6c6162656c2f78;end; = line 1
listed t | folder 6261636b75705f6c6162656c2e6f6c64;end; = line 1
listed t | folder 626173;end; = line 1
listed t | folder 50475f56455253494f4e;end; = line 1
listed t | folder 42617365;end; = line 1
listed t | folder 2f62617365;end; = line 1
listed t | folder 626173652f;end; = line 1
listed t | folder 626173652f2f31;end; = line 1
listed t | folder 2e2f62617365;end; = line 1
listed t | folder 626173652f2e;end; = line 1
listed t | folder 626173652f2e2e;end; = line 1
listed t | folder 626173652f2e2e2f676c6f62616c;end; = line 1
listed t | folder 2e;end; = line 1
listed t | folder 2f;end; = line 1
listed t | folder ff;end; = line 1
listed t | folder 626173652fff;end; = line 1
depth . 64 = again
depth . 65 = line 1
depth t 63 = again
depth t 64 = line 1
depth /a/b/c 61 = again
depth /a/b/c 62 = line 1";

/// A text with the ends of its lines.
pub(crate) fn spelled<R: AllocGlobal + Abort>(rt: &R, words: &str) -> String {
    words.replace(rt.alloc(), ";", "\n").expect(rt, "no memory")
}

fn tell_mark<R: AllocGlobal + Abort>(rt: &R, out: &mut String, words: &str) {
    let told = match replay_mark(spelled(rt, words).as_bytes()) {
        ReplayMark::Version1 => "version 1",
        ReplayMark::NotComplete => "not complete",
        ReplayMark::Complete => "complete",
        ReplayMark::Ended => "ended",
    };
    tell(rt, out, told);
}

/// Tells what stood at a path.
fn tell_one<R: Abort>(rt: &R, out: &mut String, one: &Listed) {
    match one {
        Listed::Folder(path) => says(rt, out, "folder ", path),
        Listed::Page(path, size) => {
            says(rt, out, "page ", path);
            says(rt, out, " ", size);
        }
        Listed::File(path, size) => {
            says(rt, out, "file ", path);
            says(rt, out, " ", size);
        }
    }
}

/// Tells what stood at each path.
pub(crate) fn tell_each<R: Abort>(rt: &R, out: &mut String, listed: &[Listed]) {
    let mut between = "";
    for one in listed {
        tell(rt, out, between);
        tell_one(rt, out, one);
        between = ", ";
    }
}

fn tell_fault<R: Abort>(rt: &R, out: &mut String, fault: ListFault) {
    match fault {
        ListFault::BadLine(line) => says(rt, out, "line ", &line),
        ListFault::OutOfMemory => tell(rt, out, "no memory"),
    }
}

/// The list of a text below a root; a fault is told.
fn read<R: AllocGlobal + Abort>(
    rt: &R,
    out: &mut String,
    root: &str,
    text: &str,
) -> Option<Vec<Listed>> {
    match stored_list(rt.alloc(), &path_of(rt, root), text.as_bytes()) {
        Ok(listed) => Some(listed),
        Err(fault) => {
            tell_fault(rt, out, fault);
            None
        }
    }
}

/// Tells whether a list below a root is written as a text.
fn tell_again<R: AllocGlobal + Abort>(
    rt: &R,
    out: &mut String,
    root: &str,
    listed: &[Listed],
    text: &str,
) {
    let again = list_text(rt.alloc(), &path_of(rt, root), listed).expect(rt, "no memory");
    if again.as_str() == text {
        tell(rt, out, "again");
    } else {
        tell(rt, out, "another text");
    }
}

/// A text, and whether it is written again.
fn tell_read<R: AllocGlobal + Abort>(rt: &R, out: &mut String, words: &str) {
    let (root, words) = cut_at(words, " | ");
    let text = spelled(rt, words);
    if let Some(listed) = read(rt, out, root, &text) {
        tell_each(rt, out, &listed);
        tell(rt, out, ": ");
        tell_again(rt, out, root, &listed, &text);
    }
}

/// A folder of so many parts.
fn tell_depth<R: AllocGlobal + Abort>(rt: &R, out: &mut String, words: &str) {
    let (root, parts) = cut_at(words, " ");
    let more = number(rt, parts).saturating_sub(1) as usize;
    let more = "2f61".repeat(rt.alloc(), more).expect(rt, "no memory");
    let text = format!(in rt.alloc(); "folder 62617365{more};end;").expect(rt, "no memory");
    let text = spelled(rt, &text);
    if let Some(listed) = read(rt, out, root, &text) {
        tell_again(rt, out, root, &listed, &text);
    }
}

/// `replay TEXT`, `listed ROOT | TEXT` or `depth ROOT PARTS`.
pub(crate) fn tell_lists<R: AllocGlobal + Abort>(
    rt: &R,
    out: &mut String,
    verb: &str,
    words: &str,
) {
    match verb {
        "replay" => tell_mark(rt, out, words),
        "depth" => tell_depth(rt, out, words),
        _ => tell_read(rt, out, words),
    }
}
