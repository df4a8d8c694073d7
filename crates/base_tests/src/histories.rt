// Histories of timelines. What is wanted is worked by hand from the form of the files, whose bytes are written so in
// rows: `^` is a tab, `;` the end of a line, `$` a carriage return, `!` the byte 0B and `~` the byte FF.
ghost use Rattle.std.specs.Prelude.{◌≡◌, IfOk};
ghost use Rattle.timeline_history.specs.Ancestor.{last_tli};

use crate::texts::{first_word, number, owned, said, shown};
use std::process::Abort;
use timeline_history::{Ancestor, History, HistoryFault, divergence, first_history, read_history};
use wal_base::Spans;

// A timeline, its file, and the spans that they tell: each a timeline, its first position, and its end, 0/0 where it
// isn't ended. The first file has an empty line and a comment. The second is what a server writes: the reason stands
// behind the second tab, and an empty line before each later entry. The last has blanks at the front, a position as
// before, digits of either case, and any bytes behind the second tab.
pub(crate) const SPANS: &str = "\
history spans 3 1^0/3000060;;# note;2^0/5000000 = 1 0/0 0/3000060; 2 0/3000060 0/5000000; 3 \
    0/5000000 0/0;
history spans 3 1^0/3000148^no recovery target specified;;2^0/60001A0^before 2024-05-01 \
    10:00:00+00; = 1 0/0 0/3000148; 2 0/3000148 0/60001A0; 3 0/60001A0 0/0;
history spans 1  = 1 0/0 0/0;
history spans 7  = 7 0/0 0/0;
history spans 7 ;; = 7 0/0 0/0;
history spans 7 # none = 7 0/0 0/0;
history spans 7  ^; ^# none; = 7 0/0 0/0;
history spans 4294967295  ^1^a/0000bC^~^;4294967294^A/BC; = 1 0/0 A/BC; 4294967294 A/BC A/BC; \
    4294967295 A/BC 0/0;";

// Lines that are no entry, and files of timeline 3 with the fault of their least line that has one.
pub(crate) const FAULTS: &str = "\
history fault 9 1 0/10 = BadLine(1)
history fault 9 1 = BadLine(1)
history fault 9 1^ = BadLine(1)
history fault 9 1^^0/10 = BadLine(1)
history fault 9 x^0/10 = BadLine(1)
history fault 9 +1^0/10 = BadLine(1)
history fault 9 -1^0/10 = BadLine(1)
history fault 9 01^0/10 = BadLine(1)
history fault 9 1 ^0/10 = BadLine(1)
history fault 9 4294967296^0/10 = BadLine(1)
history fault 9 1^0/G = BadLine(1)
history fault 9 1^010 = BadLine(1)
history fault 9 1^0/10  = BadLine(1)
history fault 9 1^0/10$ = BadLine(1)
history fault 9 1^0/123456789 = BadLine(1)
history fault 9 1^~/10 = BadLine(1)
history fault 9 ~^0/10 = BadLine(1)
history fault 9 !1^0/10 = BadLine(1)
history fault 3 2^0/10;1^0/20 = NotRising(2)
history fault 3 0^0/10 = NotRising(1)
history fault 3 3^0/10 = NotRising(1)
history fault 3 4^0/10 = NotRising(1)
history fault 3 1^0/0 = NotRising(1)
history fault 3 1^0/20;1^0/30 = NotRising(2)
history fault 3 1^0/20;;2^0/1F; = NotRising(3)
history fault 3 1^0/20;1^0/30;x; = NotRising(2)
history fault 3 # a;;1^0/20;x;1^0/30 = BadLine(4)
history fault 3 ;x;y = BadLine(2)";

// Where the histories of two timelines part. An end that isn't there is the greatest.
pub(crate) const PARTED: &str = "\
history parted 3 1^0/3000060;;# note;2^0/5000000 | 4 1^0/3000060;2^0/4800000; = 2 0/4800000
history parted 4 1^0/3000060;2^0/4800000; | 3 1^0/3000060;;# note;2^0/5000000 = 2 0/4800000
history parted 1  | 4 1^0/3000060;2^0/4800000; = 1 0/3000060
history parted 4 1^0/3000060;2^0/4800000; | 1  = 1 0/3000060
history parted 4 1^0/3000060;2^0/4800000; | 5 1^0/3000060;3^0/4000000; = 1 0/3000060
history parted 3 1^0/3000060;;# note;2^0/5000000 | 9 2^0/5000000 = none";

// The line of a fault, one that doesn't rise below zero.
pub(crate) const MESSAGES: &str = "\
history message 4 = line 4 is no entry of a history
history message -2 = line 2 doesn't rise above the one before it
history message 0 = out of memory";

const fn byte_of(letter: u8) -> u8 {
    match letter {
        b'^' => b'\t',
        b';' => b'\n',
        b'$' => b'\r',
        b'!' => 0x0B,
        b'~' => 0xFF,
        _ => letter,
    }
}

// The bytes of a file.
fn file_of<R: AllocGlobal + Abort>(rt: &R, text: &str) -> Vec<u8> {
    let mut bytes = Vec::new(rt.alloc());
    for &letter in text.as_bytes() {
        bytes.push(byte_of(letter)).expect(rt, "no memory");
    }
    bytes
}

// The history of a timeline, of which the first has no file.
fn history<R: AllocGlobal + Abort>(rt: &R, tli: u32, text: &str) -> Result<History, HistoryFault>
    ensures { IfOk result (λ history. last_tli history ≡ tli) }
{
    if tli == 1 {
        Ok(first_history(rt.alloc()).expect(rt, "no memory"))
    } else {
        read_history(rt.alloc(), tli, &file_of(rt, text))
    }
}

fn spans_told<R: AllocGlobal + Abort>(rt: &R, spans: &Spans) -> String {
    let mut told = String::new(rt.alloc());
    for at in 0..spans.len() {
        let span = spans.get(at).expect(rt, "no span");
        let gap = if at == 0 { "" } else { " " };
        write!(told, "{gap}{} {} {};", span.tli, span.begin, span.end).expect(rt, "no memory");
    }
    told
}

// The spans of a history, or the fault of its file.
fn read<R: AllocGlobal + Abort>(rt: &R, words: &str) -> String {
    let (tli, text) = first_word(words);
    match history(rt, number(rt, tli), text) {
        Ok(history) => spans_told(rt, history.spans()),
        Err(fault) => shown(rt, &fault),
    }
}

fn ancestor_told<R: AllocGlobal + Abort>(rt: &R, ancestor: Ancestor) -> String {
    match ancestor {
        Ancestor::Common(fork) => {
            format!(in rt.alloc(); "{} {}", fork.tli, fork.at).expect(rt, "no memory")
        }
        Ancestor::NoCommonAncestor => owned(rt, "none"),
    }
}

fn parted<R: AllocGlobal + Abort>(rt: &R, words: &str) -> String {
    let (one, other) = words.split_once(" | ").expect(rt, "one timeline");
    let (one, one_text) = first_word(one);
    let (other, other_text) = first_word(other);
    let (one, other): (u32, u32) = (number(rt, one), number(rt, other));
    assert!(rt; one != other, "one timeline");
    let a = history(rt, one, one_text).expect(rt, "no history");
    let b = history(rt, other, other_text).expect(rt, "no history");
    ancestor_told(rt, divergence(&a, &b))
}

fn message<R: AllocGlobal + Abort>(rt: &R, line: &str) -> String {
    let fault = match line {
        "4" => HistoryFault::BadLine(4),
        "-2" => HistoryFault::NotRising(2),
        "0" => HistoryFault::OutOfMemory,
        _ => panic!(rt; "no such line"),
    };
    said(rt, &fault)
}

/// `spans TIMELINE FILE`, `fault TIMELINE FILE`, `parted TIMELINE FILE | TIMELINE FILE` or `message LINE`.
pub(crate) fn of_history<R: AllocGlobal + Abort>(rt: &R, words: &str) -> String {
    let (call, given) = first_word(words);
    match call {
        "spans" | "fault" => read(rt, given),
        "parted" => parted(rt, given),
        "message" => message(rt, given),
        _ => panic!(rt; "no such call"),
    }
}
