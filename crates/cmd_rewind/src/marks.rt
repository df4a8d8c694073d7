// What a rewind makes of its own mark.

/// What a rewind makes of its own mark in the target.
#[derive(Clone, Copy)]
pub enum OwnMark {
    /// It refuses the rewind, as every mark does.
    Refused,
    /// It isn't whole, where it stands at all, and the rewind is begun anew over it.
    PassedOver,
}
