// What follows of changes that were carried out: each function's contract is a law.
ghost use Rattle.marked_runs.specs.Laws.{MadeAreAll, MadeArePart, RunsCut, RunsFront, RunsThen};
ghost use Rattle.marked_runs.specs.StopLaws.{MarkIsLeft, MarkStays, RunIsSafe};

/// How changes come one after another, and which calls were made for them.
pub fn run_laws()
    ensures then { RunsThen }
    ensures front { RunsFront }
    ensures cut { RunsCut }
    ensures part { MadeArePart }
    ensures all { MadeAreAll }
{}

/// What a stop may leave of changes under a mark, and of the run whole.
pub fn stop_laws()
    ensures stays { MarkStays }
    ensures left { MarkIsLeft }
    ensures safe { RunIsSafe }
{}
