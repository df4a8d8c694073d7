//! Sizes of segment files.

ghost use Rattle.std.specs.Prelude.{◌≡◌, ◌%◌, ◌<◌, ◌≤◌, ◌↔◌, IsSome, IfSome};
ghost use Rattle.wal_base.specs.SegSize.{IsSegSize};

/// The size of a segment file: a power of two from 1 MiB to 1 GiB.
#[derive(Clone, Copy, Debug, PartialEq, Eq)]
pub struct SegSize {
    bytes: u32,
    pub ghost is_size: { IsSegSize bytes },
}

impl SegSize {
    ghost use Rattle.wal_base.specs.Segment.{bytes_of, segments_per_high};
    ghost use Rattle.wal_base.specs.SizeOfBytes.{size_of_bytes};

    /// The size of so many bytes, or `None` where that isn't a power of two from 2^20 to 2^30.
    pub fn new(bytes: u32) -> Option<SegSize>
        ensures exact { result ≡ size_of_bytes bytes }
        ensures valid { IsSome result ↔ IsSegSize bytes }
        ensures value { IfSome result (λ size. bytes_of size ≡ bytes) }
    {
        SegSize::tested(bytes)
    }

    fn tested(bytes: u32) -> Option<SegSize>
        ensures valid { IsSome result ↔ IsSegSize bytes }
        ensures value { IfSome result (λ size. bytes_of size ≡ bytes) }
    {
        if bytes.is_power_of_two() && bytes >= 0x10_0000 && bytes <= 0x4000_0000 {
            Some(SegSize { bytes })
        } else {
            None
        }
    }

    /// How many bytes a segment file has.
    pub fn bytes(self) -> u32
        ensures value { result ≡ bytes_of self }
        ensures size { IsSegSize result }
        ensures pages { result % 8192 ≡ 0 }
    {
        self.bytes
    }

    /// How many segments have positions with one high half.
    pub(crate) fn per_high(self) -> u64
        ensures value { result ≡ segments_per_high (bytes_of self) }
        ensures some { 0 < result }
        ensures few { result ≤ 4096 }
    {
        (1 << 32) / u64::from(self.bytes)
    }
}
