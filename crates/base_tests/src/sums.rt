// Sums of bytes.
ghost use Rattle.std.specs.Prelude.{◌≡◌, ◌++◌};
ghost use Rattle.wal_base.specs.Crc.{crc32c};

use std::test::*;
use wal_base::{Crc32c, plain_crc32c};

// A caller's proof: bytes added in two pieces.
fn sum_of(front: &[u8], back: &[u8]) -> u32
    ensures { result ≡ crc32c (front.now ++ back.now) }
{
    let mut crc = Crc32c::new();
    crc.add(front);
    crc.add(back);
    crc.value()
}

// The vectors of RFC 3720, appendix B.4, and the usual one of nine digits.
#[test]
fn sums_are_the_published_ones(rt: HostRuntime) {
    let rows: [(&[u8], &[u8], u32); 5] = [
        (b"", b"", 0),
        (b"123456789", b"", 0xE306_9283),
        (b"1234", b"56789", 0xE306_9283),
        (&[0; 32], b"", 0x8A91_36AA),
        (&[0xFF; 32], b"", 0x62A8_AB43),
    ];
    for (front, back, sum) in rows {
        assert!(rt; sum_of(front, back) == sum);
    }
}

// Every rest of less than sixteen bytes; the sum of the whole comes from a Python script of the
// definition.
#[test]
fn the_fast_body_gives_the_plain_sums(rt: HostRuntime) {
    let bytes = b"Sixteen bytes at a time, then four, then one: of 79 bytes, 64 and 12 and 3 are.";
    for len in 0..=bytes.len() {
        assert!(rt;
            sum_of(&bytes[..len], b"") == plain_crc32c(&bytes[..len]),
            "{len}"
        );
    }
    assert!(rt; sum_of(bytes, b"") == 0xC1CE_4FCF);
}
