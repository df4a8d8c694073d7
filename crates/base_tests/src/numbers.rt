// Numbers, positions and segments as text. Each row is a call, what it is given, and what it
// answers.
ghost use Rattle.std.specs.Prelude.{◌*◌, ◌<◌, ◌^◌};
ghost use Rattle.wal_base.specs.Segment.{bytes_of};

use crate::texts::{first_word, number, owned, said, text_of};
use std::fmt::Display;
use std::process::Abort;
use wal_base::{
    HexByte, HexWord, Lsn, OutOfMemory, SegSize, Segment, Spans, Text, decimal_u32, decimal_u64,
    eight_digits, hex_digit, is_long_name,
};

// A position is answered as its number, its text and its padded text, as PostgreSQL's pg_lsn takes
// and shows them. A segment is given by the size of segments and a name, or a position on timeline 2
// that it holds, and answered as its timeline, its number, the position at which it starts
// (`XLogSegNoOffsetToRecPtr`) and its name. Hexadecimals are those of C's printf.
pub(crate) const ROWS: &str = "\
number position 0/16B3748 = 23803720 0/16B3748 0/016B3748
number position 00000000/016b3748 = 23803720 0/16B3748 0/016B3748
number position FFFFFFFF/FFFFFFFF = 18446744073709551615 FFFFFFFF/FFFFFFFF FFFFFFFF/FFFFFFFF
number position 0/0 = 0 0/0 0/00000000
number position 1/0 = 4294967296 1/0 1/00000000
number position  = none
number position / = none
number position 0/ = none
number position /0 = none
number position 1/123456789 = none
number position 123456789/1 = none
number position g/0 = none
number position 0/0/0 = none
number position +1/0 = none
number position  0/0 = none
number position 0 = none
number segment 16777216 00000002000000050000003A = 2 1338 5/3A000000 00000002000000050000003A
number segment 1048576 0000000200000005000003A0 = 2 21408 5/3A000000 0000000200000005000003A0
number segment 1073741824 000000020000000500000000 = 2 20 5/0 000000020000000500000000
number segment 1073741824 00000002000000050000003A = none
number segment 1073741824 00000002000000050000000 = none
number segment 1073741824 0000000200000005000000000 = none
number segment 1073741824 00000002000000050000000a = none
number segment 1073741824 00000002000000050000000g = none
number segment 1073741824 00000002.00000050000000A = none
number segment 0 00000002000000050000003A = no size
number segment 524288 00000002000000050000003A = no size
number segment 1572864 00000002000000050000003A = no size
number segment 2147483648 00000002000000050000003A = no size
number holding 16777216 5/3A000000 = 2 1338 5/3A000000 00000002000000050000003A
number holding 1048576 5/3A000000 = 2 21408 5/3A000000 0000000200000005000003A0
number holding 1073741824 5/3A000000 = 2 20 5/0 000000020000000500000000
number holding 1048576 5/3A012345 = 2 21408 5/3A000000 0000000200000005000003A0
number long 00000002000000050000003A = true
number long FFFFFFFFFFFFFFFFFFFFFFFF = true
number long 00000002000000050000003 = false
number long 00000002000000050000003A0 = false
number long 00000002000000050000003a = false
number long 0000000200000005000000G0 = false
number long  = false
number u32 0 = 0
number u32 10 = 10
number u32 4294967295 = 4294967295
number u32 4294967296 = none
number u32 99999999999999999999999 = none
number u32 01 = none
number u32 00 = none
number u32 +1 = none
number u32 -1 = none
number u32  1 = none
number u32 1  = none
number u32 1A = none
number u32  = none
number u64 18446744073709551615 = 18446744073709551615
number u64 18446744073709551616 = none
number hex 4 31 = 001F
number hex 4 703710 = ABCDE
number hex 0 0 = 0
number hex 16 18446744073709551615 = FFFFFFFFFFFFFFFF
number byte 10 = 0A
number digit 15 = F
number eight 23803720 = 016B3748
number text pg_wal = pg_wal
number memory  = out of memory
number span 1 = 2 0/3000000 0/4800000
number span 3 = none
number timeline 0 = 1
number timeline 2 = 1
number timeline 3 = 2
number timeline 4 = 5
number timeline 1099511627776 = 5
number timeline 18446744073709551615 = 5
number below 4294967295 4294967296 = true";

// A value, or `none`.
fn or_none<D: Display + Drop, R: AllocGlobal + Abort>(rt: &R, found: Option<D>) -> String {
    match found {
        Some(found) => said(rt, &found),
        None => owned(rt, "none"),
    }
}

fn position<R: AllocGlobal + Abort>(rt: &R, text: &str) -> String {
    let Some(at) = Lsn::parse(text) else {
        return owned(rt, "none");
    };
    let shown = at.text(rt.alloc()).expect(rt, "no memory");
    let padded = at.padded(rt.alloc()).expect(rt, "no memory");
    let text = format!(in rt.alloc(); "{} {} {}", at.0, shown.as_str(), padded.as_str());
    text.expect(rt, "no memory")
}

fn described<R: AllocGlobal + Abort>(rt: &R, tli: u32, number: u64, size: SegSize) -> String
    requires { number * bytes_of size < 2 ^ 64 }
{
    let segment = Segment { tli, number, size };
    let name = segment.name(rt.alloc()).expect(rt, "no memory");
    let start = segment.start();
    format!(in rt.alloc(); "{tli} {number} {start} {}", name.as_str()).expect(rt, "no memory")
}

fn segment<R: AllocGlobal + Abort>(rt: &R, name: &str, size: SegSize) -> String {
    match Segment::parse_name(name, size) {
        Some(segment) => described(rt, segment.tli, segment.number, size),
        None => owned(rt, "none"),
    }
}

fn holding<R: AllocGlobal + Abort>(rt: &R, at: &str, size: SegSize) -> String {
    let at = Lsn::parse(at).expect(rt, "no position");
    let segment = Segment::of(2, at, size);
    described(rt, segment.tli, segment.number, size)
}

// A size of segments, and a name or a position.
fn sized<R: AllocGlobal + Abort>(rt: &R, call: &str, given: &str) -> String {
    let (size, text) = given.split_once(' ').expect(rt, "no size");
    match (call, SegSize::new(number(rt, size))) {
        (_, None) => owned(rt, "no size"),
        ("segment", Some(size)) => segment(rt, text, size),
        (_, Some(size)) => holding(rt, text, size),
    }
}

fn hexadecimal<R: AllocGlobal + Abort>(rt: &R, given: &str) -> String {
    let (width, digits) = first_word(given);
    let word = HexWord {
        width: number(rt, width),
        number: number(rt, digits),
    };
    said(rt, &word)
}

// Timeline 1 up to 0/3000000, timeline 2 up to 0/4800000, and timeline 5.
fn three_spans<R: AllocGlobal + Abort>(rt: &R) -> Spans {
    let mut spans = Spans::one(rt.alloc(), 1).expect(rt, "no memory");
    spans
        .end_and_add(Lsn(0x300_0000), 2)
        .expect(rt, "no memory");
    spans
        .end_and_add(Lsn(0x480_0000), 5)
        .expect(rt, "no memory");
    spans.copy(rt.alloc()).expect(rt, "no memory")
}

// The timeline from which a segment of 16 MiB is read.
fn timeline<R: AllocGlobal + Abort>(rt: &R, text: &str) -> String {
    let size = SegSize::new(0x100_0000).expect(rt, "no size");
    let spans = three_spans(rt);
    said(rt, &spans.segment_tli(number(rt, text), size))
}

// The span at a place.
fn span<R: AllocGlobal + Abort>(rt: &R, at: &str) -> String {
    let spans = three_spans(rt);
    match (spans.len(), spans.get(number(rt, at))) {
        (3, Some(span)) => {
            let text = format!(in rt.alloc(); "{} {} {}", span.tli, span.begin, span.end);
            text.expect(rt, "no memory")
        }
        (3, None) => owned(rt, "none"),
        _ => owned(rt, "not three spans"),
    }
}

// The one digit of a number below 16.
fn digit<R: AllocGlobal + Abort>(rt: &R, number: u8) -> String {
    assert!(rt; number < 16, "no digit");
    owned(rt, hex_digit(number))
}

fn copied<R: AllocGlobal + Abort>(rt: &R, text: &str) -> String {
    let copy = Text::new(rt.alloc(), text).expect(rt, "no memory");
    owned(rt, copy.as_str())
}

// Whether a position is below another, by their numbers.
fn below<R: Abort>(rt: &R, given: &str) -> bool {
    let (one, other) = first_word(given);
    Lsn(number(rt, one)) < Lsn(number(rt, other))
}

// What a call about positions, segments or timelines answers.
fn of_position<R: AllocGlobal + Abort>(rt: &R, call: &str, given: &str) -> String {
    match call {
        "below" => said(rt, &below(rt, given)),
        "position" => position(rt, given),
        "segment" | "holding" => sized(rt, call, given),
        "long" => said(rt, &is_long_name(given.as_bytes())),
        "timeline" => timeline(rt, given),
        "span" => span(rt, given),
        _ => panic!(rt; "no such call"),
    }
}

/// A call, and what it is given.
pub(crate) fn of_number<R: AllocGlobal + Abort>(rt: &R, words: &str) -> String {
    let (call, given) = first_word(words);
    match call {
        "u32" => or_none(rt, decimal_u32(given.as_bytes())),
        "u64" => or_none(rt, decimal_u64(given.as_bytes())),
        "hex" => hexadecimal(rt, given),
        "byte" => said(rt, &HexByte(number(rt, given))),
        "digit" => digit(rt, number(rt, given)),
        "eight" => text_of(rt, &eight_digits(number(rt, given))),
        "text" => copied(rt, given),
        "memory" => said(rt, &OutOfMemory),
        _ => of_position(rt, call, given),
    }
}
