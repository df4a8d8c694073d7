//! Laws: what holds of the definitions, whatever calls them.

ghost use Rattle.plain_restarts.specs.Laws.{
  BegunHasKinds,
  ClearedIsCleared,
  KindsStay,
  LittleIsInTheWay,
  OneIsPlain,
  RefusedPlainly,
  RunIsPlain,
};

/// A cluster without mark and copies has neither, and all else as it was.
pub fn cleared_is_cleared()
    ensures { ClearedIsCleared }
{}

/// Of a cluster in which no replay was begun a run leaves and tells what pg_walreplay does of the same
/// cluster without mark and copies.
pub fn run_is_plain()
    ensures { RunIsPlain }
{}

/// So do runs that are stopped, however often, and done at last.
pub fn one_is_plain()
    ensures { OneIsPlain }
{}

/// A run that goes on isn't done only where something is in its way, where a device failed or memory was
/// wanting, or where pg_walreplay breaks off too.
pub fn refused_plainly()
    ensures { RefusedPlainly }
{}

/// At what would be brought back of a cluster of which a replay was begun stands neither a link nor a
/// folder with a name that isn't text.
pub fn begun_has_kinds()
    ensures { BegunHasKinds }
{}

/// No changing call makes one, nor does a stop leave one, whatever is called.
pub fn kinds_stay()
    ensures { KindsStay }
{}

/// So nothing else is in the way of what is brought back than a folder where the label stood, or one whose
/// path has 64 parts.
pub fn little_is_in_the_way()
    ensures { LittleIsInTheWay }
{}
