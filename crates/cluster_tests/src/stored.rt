//! Plans of rewinds as texts, worked out by hand by the rules of docs/FORMATS.md; the digits of paths come from a script
//! of its own. In rows the end of a line is written as `;`, the first two lines as HEAD, and as TAIL a label, a control
//! file of zeros (its digits are ZEROS) and the end.
use crate::plans::tell_all;
use crate::texts::{number, says, tell};
use crate::trees::{path_of, root_of};
use plan_text::{MarkText, StoredFault, StoredPlan, mark_text, plan_text, stored_plan};
use std::process::Abort;
use tree_lines::cut_at;

/// What the bytes of a mark tell.
pub(crate) const MARKS: &str = "\
mark  = not complete
mark pg_rewind 1; = version 1
mark pg_rewind 1 = not complete
mark pg_rewind 1;; = not complete
mark pg_rewind 2; = not complete
mark pg_rewind 2;-; = not complete
mark pg_rewind 2;-;HEADTAIL = not complete
mark pg_rewind 2;+; = not complete
mark pg_rewind 2;+;s = complete
mark pg_rewind 2;+;HEADTAIL = complete
mark pg_rewind 2;+-s = complete
mark pg_rewind 3;+;s = not complete
mark pg_rewind 1;+;s = not complete
mark pg_rewind 2+;;s = not complete
mark  pg_rewind 2;+;s = not complete";

/// Plans that are read: from where is rewound, the steps, the mark, the label and the control file; and written as the
/// same text.
pub(crate) const TAKEN: &str = "\
stored /x/t s | HEADTAIL = 0012ABEF 1 0/1000A0 0/100028 1: : /x/t/pg_rewind.unfinished, \
    /x/t/backup_label ab, /x/t/global/pg_control 8192: again
stored /x/t s | HEADfolder 62;range 626173652f352f3136333834 8192 8192;whole \
    676c6f62616c2f31323632 17;cut 62 7;remove 62;TAIL = 0012ABEF 1 0/1000A0 0/100028 1: folder \
    /x/t/b, range s/base/5/16384 /x/t/base/5/16384 8192 8192, whole s/global/1262 \
    /x/t/global/1262 17, cut /x/t/b 7, remove /x/t/b: /x/t/pg_rewind.unfinished, \
    /x/t/backup_label ab, /x/t/global/pg_control 8192: again
stored . / | source FFFFFFFF;told 4294967295 FFFFFFFF/FFFFFFFF 0/0 0;whole c3a92f612062 \
    18446744073709551615;range 612f70675f726577696e642e756e66696e6973686564 0 \
    18446744073709551615;label ;control ZEROS;end; = FFFFFFFF 4294967295 FFFFFFFF/FFFFFFFF 0/0 \
    0: whole /é/a b é/a b 18446744073709551615, range /a/pg_rewind.unfinished \
    a/pg_rewind.unfinished 0 18446744073709551615: pg_rewind.unfinished, backup_label , \
    global/pg_control 8192: again";

/// The first two lines, and lines of steps, of another form.
pub(crate) const FORMS: &str = "\
stored t s |  = line 1
stored t s | source 0012ABEF = line 1
stored t s | source 0012abef;TAIL = line 1
stored t s | source 12ABEF;TAIL = line 1
stored t s | source 000012ABEF;TAIL = line 1
stored t s | source  0012ABEF;TAIL = line 1
stored t s | source 0012ABEF ;TAIL = line 1
stored t s | ;HEADTAIL = line 1
stored t s | source 0012ABEF;TAIL = line 2
stored t s | source 0012ABEF;told 01 0/1000A0 0/100028 1;TAIL = line 2
stored t s | source 0012ABEF;told 4294967296 0/1000A0 0/100028 1;TAIL = line 2
stored t s | source 0012ABEF;told 1 0/1000a0 0/100028 1;TAIL = line 2
stored t s | source 0012ABEF;told 1 0/1000A0 0/0100028 1;TAIL = line 2
stored t s | source 0012ABEF;told 1 0/1000A0 0/100028;TAIL = line 2
stored t s | source 0012ABEF;told 1 0/1000A0 0/100028 1 1;TAIL = line 2
stored t s | HEADfolder 6;TAIL = line 3
stored t s | HEADfolder 6B;TAIL = line 3
stored t s | HEADfolder ;TAIL = line 3
stored t s | HEADfolder;TAIL = line 3
stored t s | HEADfolder 62 1;TAIL = line 3
stored t s | HEADfolder ff;TAIL = line 3
stored t s | HEADfolder 2f62;TAIL = line 3
stored t s | HEADfolder 622f2f63;TAIL = line 3
stored t s | HEADfolder 622f;TAIL = line 3
stored t s | HEADfolder 622f2e2e;TAIL = line 3
stored t s | HEADfolder 2e;TAIL = line 3
stored t s | HEADwhole 62;TAIL = line 3
stored t s | HEADwhole 62 017;TAIL = line 3
stored t s | HEADwhole 62 18446744073709551616;TAIL = line 3
stored t s | HEADcut 62 -1;TAIL = line 3
stored t s | HEADrange 62 8192;TAIL = line 3
stored t s | HEADrange 62 1 18446744073709551615;TAIL = line 3
stored t s | HEADcopy 62;TAIL = line 3
stored t s | HEADfolder 62;;TAIL = line 4";

/// Paths that have no step of their own, and paths of so many parts behind the verb, which may be too deep with a root.
pub(crate) const PATHS: &str = "\
stored t s | HEADrange 676c6f62616c2f70675f636f6e74726f6c 0 8192;TAIL = line 3
stored t s | HEADremove 70675f726577696e642e756e66696e6973686564;TAIL = line 3
stored t s | HEADfolder 62;remove 70675f77616c7265706c61792e756e66696e6973686564;TAIL = line 4
stored t s | HEADcut 70675f726573657477616c2e756e66696e6973686564 0;TAIL = line 3
deep a/b c/d folder 62 = again
deep a/b c/d folder 63 = line 3
deep a/b c/d/e folder 61 = again
deep a/b c/d/e folder 62 = line 3
deep a/b c/d/e remove 62 = again
deep a/b c/d/e remove 63 = line 3
deep . . folder 64 = again
deep . . folder 65 = line 3";

/// Lines at another place, and what closes a plan.
pub(crate) const PLACES: &str = "\
stored t s | HEADcut 62 7;folder 62;TAIL = line 4
stored t s | HEADremove 62;cut 62 7;TAIL = line 4
stored t s | HEADfolder 62;remove 62;whole 63 0;TAIL = line 5
stored t s | HEADtold 1 0/1000A0 0/100028 1;TAIL = line 3
stored t s | HEAD = line 3
stored t s | HEADfolder 62; = line 4
stored t s | HEADfolder 62;label 6162 = line 4
stored t s | HEADlabel 6162;label 6162;control ZEROS;end; = line 4
stored t s | HEADlabel 616;control ZEROS;end; = line 3
stored t s | HEADcontrol ZEROS;label 6162;end; = line 3
stored t s | HEADlabel 6162;folder 62;control ZEROS;end; = line 4
stored t s | HEADlabel 6162;control 00;end; = line 4
stored t s | HEADlabel 6162;control ZEROS00;end; = line 4
stored t s | HEADlabel 6162;control ZEROS; = line 5
stored t s | HEADlabel 6162;control ZEROS;end = line 5
stored t s | HEADlabel 6162;control ZEROS;end ; = line 5
stored t s | HEADTAIL; = line 6
stored t s | HEADTAILend; = line 6
stored t s | HEADTAILx = line 6";

fn replaced<R: AllocGlobal + Abort>(rt: &R, text: &str, word: &str, by: &str) -> String {
    text.replace(rt.alloc(), word, by).expect(rt, "no memory")
}

/// A text with its words spelled out.
pub(crate) fn spelled<R: AllocGlobal + Abort>(rt: &R, words: &str) -> String {
    let zeros = "0".repeat(rt.alloc(), 16384).expect(rt, "no memory");
    let head = "source 0012ABEF;told 1 0/1000A0 0/100028 1;";
    let text = replaced(rt, words, "HEAD", head);
    let text = replaced(rt, &text, "TAIL", "label 6162;control ZEROS;end;");
    let text = replaced(rt, &text, "ZEROS", &zeros);
    replaced(rt, &text, ";", "\n")
}

fn tell_mark<R: AllocGlobal + Abort>(rt: &R, out: &mut String, words: &str) {
    let told = match mark_text(spelled(rt, words).as_bytes()) {
        MarkText::Version1 => "version 1",
        MarkText::NotComplete => "not complete",
        MarkText::Complete => "complete",
    };
    tell(rt, out, told);
}

/// Tells what a plan says.
fn tell_plan<R: AllocGlobal + Abort>(rt: &R, out: &mut String, stored: &StoredPlan) {
    let (told, plan) = (&stored.told, &stored.plan);
    write!(
        out,
        "{:08X} {} {} {} {}: ",
        stored.source, told.fork.tli, told.fork.at, told.checkpoint, told.tli
    )
    .expect(rt, "no memory");
    tell_steps(rt, out, stored);
    says(rt, out, ": ", &plan.mark);
    says(rt, out, ", ", &plan.label.path);
    let label = str::from_utf8(&plan.label.bytes).unwrap_or("no text");
    says(rt, out, " ", &label);
    says(rt, out, ", ", &plan.control.path);
    says(rt, out, " ", &plan.control.bytes.len());
    tell(rt, out, ": ");
}

fn tell_steps<R: AllocGlobal + Abort>(rt: &R, out: &mut String, stored: &StoredPlan) {
    let mut steps = String::new(rt.alloc());
    tell_all(rt, &mut steps, &stored.plan.steps);
    tell(rt, out, &steps);
}

fn tell_fault<R: Abort>(rt: &R, out: &mut String, fault: StoredFault) {
    match fault {
        StoredFault::BadPlan(line) => says(rt, out, "line ", &line),
        StoredFault::OutOfMemory => tell(rt, out, "no memory"),
    }
}

/// The plan of a text between two roots; a fault is told.
fn read<R: AllocGlobal + Abort>(
    rt: &R,
    out: &mut String,
    roots: (&str, &str),
    text: &str,
) -> Option<StoredPlan> {
    let (target, source) = (root_of(rt, roots.0), root_of(rt, roots.1));
    match stored_plan(rt.alloc(), &target, &source, text.as_bytes()) {
        Ok(stored) => Some(stored),
        Err(fault) => {
            tell_fault(rt, out, fault);
            None
        }
    }
}

/// Tells whether a plan of a root is written as a text.
fn tell_again<R: AllocGlobal + Abort>(
    rt: &R,
    out: &mut String,
    root: &str,
    stored: &StoredPlan,
    text: &str,
) {
    let again = plan_text(rt.alloc(), &path_of(rt, root), stored).expect(rt, "no memory");
    if again.as_str() == text {
        tell(rt, out, "again");
    } else {
        tell(rt, out, "another text");
    }
}

/// A text, and whether it is written again.
fn tell_read<R: AllocGlobal + Abort>(rt: &R, out: &mut String, words: &str) {
    let (roots, words) = cut_at(words, " | ");
    let (roots, text) = (cut_at(roots, " "), spelled(rt, words));
    if let Some(stored) = read(rt, out, roots, &text) {
        tell_plan(rt, out, &stored);
        tell_again(rt, out, roots.0, &stored, &text);
    }
}

/// A plan with a step at a path of so many parts.
fn tell_deep<R: AllocGlobal + Abort>(rt: &R, out: &mut String, words: &str) {
    let (target, behind) = cut_at(words, " ");
    let (source, behind) = cut_at(behind, " ");
    let (verb, parts) = cut_at(behind, " ");
    let more = number(rt, parts).saturating_sub(1) as usize;
    let more = "2f61".repeat(rt.alloc(), more).expect(rt, "no memory");
    let text = format!(in rt.alloc(); "HEAD{verb} 61{more};TAIL").expect(rt, "no memory");
    let text = spelled(rt, &text);
    if let Some(stored) = read(rt, out, (target, source), &text) {
        tell_again(rt, out, target, &stored, &text);
    }
}

/// `mark TEXT`, `stored TARGET SOURCE | TEXT` or `deep TARGET SOURCE VERB PARTS`.
pub(crate) fn tell_stored<R: AllocGlobal + Abort>(
    rt: &R,
    out: &mut String,
    verb: &str,
    words: &str,
) {
    match verb {
        "mark" => tell_mark(rt, out, words),
        "deep" => tell_deep(rt, out, words),
        _ => tell_read(rt, out, words),
    }
}
