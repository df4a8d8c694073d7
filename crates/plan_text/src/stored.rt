// What a mark holds.
use rewind_survey::Told;
use rewind_writes::Plan;

/// A rewind that was planned, as its mark holds it.
#[derive(Drop)]
pub struct StoredPlan {
    /// The CRC in the source's control file.
    pub source: u32,
    /// From where the target is rewound.
    pub told: Told,
    /// What is changed.
    pub plan: Plan,
}
