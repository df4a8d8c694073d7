// The two clusters of a pair, and which tuples each has of its own.
ghost use Rattle.std.specs.Prelude.{◌≡◌, ◌+◌, ◌%◌, ◌^◌};
ghost use Rattle.pair_maker.specs.Inserts.{inserts_into};
ghost use Rattle.pair_maker.specs.Logs.{timeline_of};

/// A cluster of a pair.
#[derive(Clone, Copy, Debug, PartialEq, Eq)]
pub enum Side {
    /// The one that is rewound.
    Target,
    /// The one that it is rewound to.
    Source,
}

/// Whether a cluster has a tuple of its own in a block.
pub(crate) fn inserts_into(side: Side, seed: u64, block: u32) -> bool
    ensures { result ≡ inserts_into side seed block }
{
    match side {
        Side::Target => (7 * u128::from(block) + u128::from(seed)) % 5 == 0,
        Side::Source => (11 * u128::from(block) + u128::from(seed)) % 3 == 0,
    }
}

/// The value of the tuple of a block.
pub(crate) fn value_of(seed: u64, block: u32) -> u32
    ensures { result ≡ (block + seed) % 2 ^ 32 }
{
    ((u128::from(block) + u128::from(seed)) % (1 << 32)) as u32
}

/// The timeline that a cluster ends on.
pub(crate) fn timeline_of(side: Side) -> u32
    ensures { result ≡ timeline_of side }
{
    match side {
        Side::Target => 1,
        Side::Source => 2,
    }
}
