//! Laws: what holds of the definitions, whatever calls them.

ghost use Rattle.stopped_restarts.specs.Laws.{FirstIsUnbegun, RefusedAsOne, RunIsOne, StopsGoOn};

/// What a first run finds is what no stop has changed yet.
pub fn first_is_unbegun()
    ensures { FirstIsUnbegun }
{}

/// What a stop of a run leaves that found what stops left is again what stops may leave.
pub fn stops_go_on()
    ensures { StopsGoOn }
{}

/// A run that is done and found what stops left leaves what one run leaves, and tells what that tells.
pub fn run_is_one()
    ensures { RunIsOne }
{}

/// A run that goes on from what a stop left isn't done only where something is in its way, or where the
/// run that was stopped would have broken off too.
pub fn refused_as_one()
    ensures { RefusedAsOne }
{}
