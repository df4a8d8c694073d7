// What a replay that can be started again tells.
use replay_core::Replayed;

/// What was done.
#[derive(Clone, Copy, Debug, PartialEq, Eq)]
pub enum Restarted {
    /// The log was replayed.
    Replayed(Replayed),
    /// An earlier replay had ended, and only its mark was left to remove.
    HadEnded,
}
