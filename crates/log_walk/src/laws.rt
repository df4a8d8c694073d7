//! Laws: what holds of the walk back, whatever calls it.

ghost use Rattle.log_walk.specs.Laws.{CheckpointIsCommon, NoneIsCommon, WalkGoesOn};

/// The walk back from a place is what the place has by itself, and the walk from its link.
pub fn walk_goes_on()
    ensures { WalkGoesOn }
{}

/// A checkpoint is found exactly where the first record of the log from the fork on leads back to
/// it, link by link, over records of which none is a checkpoint that starts below the fork; and none
/// is found exactly where it leads back so to a record that links to none before it.
pub fn checkpoint_is_common()
    ensures found { CheckpointIsCommon }
    ensures none { NoneIsCommon }
{}
