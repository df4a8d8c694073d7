// The blocks of a relation's file.
ghost use Rattle.std.specs.Prelude.{◌≤◌, length};

/// The blocks of a relation's file, at most 4096 of them.
#[derive(Drop)]
pub struct BlockEnds {
    /// The number that the tuples are of.
    pub seed: u64,
    /// Of each block, where the insert into it ends, if there is one.
    pub ends: Vec<Option<u64>>,
    pub ghost few: { length ends.items ≤ 4096 },
}
