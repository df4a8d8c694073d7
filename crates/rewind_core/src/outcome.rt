// What is to be done, and what was.
ghost use Rattle.std.specs.Prelude.{◌≡◌};

use rewind_survey::{Divergence, Told};
use rewind_writes::Plan as Writes;
use wal_base::Text;

/// A rewind that is needed, made ready: it holds all memory that its changes need.
#[derive(Drop)]
pub struct Plan {
    pub(crate) told: Told,
    pub(crate) writes: Writes,
    pub(crate) text: Text,
}

impl Plan {
    /// From where it rewinds.
    pub fn told(&self) -> Told
        ensures { result ≡ self.now.told }
    {
        self.told
    }
}

/// What a target needs.
#[derive(Drop)]
pub enum Planned {
    /// Nothing: both clusters are on one timeline.
    SameTimeline,
    /// Nothing: the target's log ends where the clusters parted, or below.
    EndsAtFork(Divergence),
    /// A rewind.
    Needed(Plan),
}

/// What was done to a target.
#[derive(Clone, Copy, Debug, PartialEq, Eq)]
pub enum RewindDone {
    /// Nothing, since both clusters are on one timeline, or the target's log ends at this fork.
    NotNeeded(Option<Divergence>),
    /// It was rewound from there.
    Rewound(Told),
}
