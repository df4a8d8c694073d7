//! Laws: what holds of the definitions, whatever calls them.

ghost use Rattle.wal_records.specs.Laws.{SpellsExactly, OneOutcome, SpelledIsPassed, LogGoesOn, FromPlaceInOrder, LogIsInOrder, LogIsOfFiles, ToComeIsOfFiles, KnownByFiles};

/// A record is read at a place exactly where the payload from there spells it.
pub fn spells_exactly()
    ensures { SpellsExactly }
{}

/// What a place has is one of three: a record that it spells, a record that was dropped, or one
/// reason why the log ends there; the latter two by the first test that fails, in the format's
/// order.
pub fn place_has_one_outcome()
    ensures outcome { OneOutcome }
    ensures passed { SpelledIsPassed }
{}

/// The log from a place on is what the place has, and the log from where that goes on.
pub fn log_goes_on()
    ensures { LogGoesOn }
{}

/// The records of a log stand one after another: their ends rise, and lie above its start.
pub fn log_is_in_order()
    ensures from_place { FromPlaceInOrder }
    ensures whole { LogIsInOrder }
{}

/// A log is a function of its segments' files: in all contents that have the same ones it is the
/// same, and a cursor that knows it in the one knows it in the other.
pub fn log_is_of_files()
    ensures log { LogIsOfFiles }
    ensures to_come { ToComeIsOfFiles }
    ensures known { KnownByFiles }
{}
