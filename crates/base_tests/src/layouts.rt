// Values by hand from the layout of numbers with the lowest byte first.
use layout::{Row, Rule, first_broken, i64_at, raw_at, u8_at, u16_at, u32_at, u64_at};

// The byte at place k is k + 1, but the last eight are FE and seven FF: -2 in two's complement.
const BYTES: [u8; 40] = [
    1, 2, 3, 4, 5, 6, 7, 8, 9, 10, 11, 12, 13, 14, 15, 16, 17, 18, 19, 20, 21, 22, 23, 24, 25, 26,
    27, 28, 29, 30, 31, 32, 0xFE, 0xFF, 0xFF, 0xFF, 0xFF, 0xFF, 0xFF, 0xFF,
];

#[test]
fn reads_the_lowest_byte_first(rt: HostRuntime) {
    let short = (u8_at(&BYTES, 39), u16_at(&BYTES, 1), u32_at(&BYTES, 2));
    assert!(rt; short == (0xFF, 0x0302, 0x0605_0403));
    let long = (u64_at(&BYTES, 3), i64_at(&BYTES, 32));
    assert!(rt; long == (0x0B0A_0908_0706_0504, -2));
    assert!(rt; raw_at(&BYTES, 8)[24..] == BYTES[32..]);
}

#[test]
fn a_row_has_the_number_of_its_value(rt: HostRuntime) {
    let any = Rule::Any;
    let rows = [
        (Row::byte('a', 0, 0xFF, any), 0xFF),
        (Row::half('b', 2, 0xFFFF, any), 0xFFFF),
        (Row::word('c', 4, 0xFFFF_FFFF, any), 0xFFFF_FFFF),
        (Row::long('d', 8, u64::MAX, any), u64::MAX),
        (Row::signed('e', 16, -1, any), 0),
        (Row::raw('f', 24, [1; 32], any), 0),
    ];
    for (row, number) in rows {
        assert!(rt; row.value.number() == number, "at {}", row.field);
    }
}

#[test]
fn rules_allow(rt: HostRuntime) {
    let rows = [
        (Rule::Any, u64::MAX, true),
        (Rule::AtMost(6), 6, true),
        (Rule::AtMost(6), 7, false),
        (Rule::Only(8), 8, true),
        (Rule::Only(8), 9, false),
        (Rule::Between(1, 3), 0, false),
        (Rule::Between(1, 3), 1, true),
        (Rule::Between(1, 3), 3, true),
        (Rule::Between(1, 3), 4, false),
        (Rule::PowerOfTwo(8, 32), 0, false),
        (Rule::PowerOfTwo(8, 32), 4, false),
        (Rule::PowerOfTwo(8, 32), 8, true),
        (Rule::PowerOfTwo(8, 32), 16, true),
        (Rule::PowerOfTwo(8, 32), 24, false),
        (Rule::PowerOfTwo(8, 32), 32, true),
        (Rule::PowerOfTwo(8, 32), 64, false),
    ];
    for (rule, number, allowed) in rows {
        assert!(rt; rule.allows(number) == allowed, "{rule:?} at {number}");
    }
}

fn broken_field(rows: &[Row<char>]) -> Option<char> {
    first_broken(rows).map(|row| row.field)
}

#[test]
fn finds_the_first_broken_row(rt: HostRuntime) {
    let kept = Row::byte('a', 0, 1, Rule::AtMost(1));
    let second = Row::word('b', 4, 9, Rule::Only(8));
    let third = Row::long('c', 8, 0, Rule::Between(1, 2));
    let of_three = broken_field(&[kept, second, third]);
    let of_two = broken_field(&[kept, third]);
    let of_one = broken_field(&[kept]);
    assert!(rt; (of_three, of_two, of_one) == (Some('b'), Some('c'), None));
}
