// What follows of such marks, for callers: each function's contract is a law.
ghost use Rattle.gated_marks.specs.Laws.{BegunIsTold, BegunIsUnrefused, BegunIsWhole, BodyIsUnder, CompleteIsUnder, EndIsLeft, GatedIsTold, LaidThenUnder, RunIsImage, RunIsSafe, SyncedIsTold, TornByteIsByte, UnderIsEnded, UnderIsMarked, WholeIsRead};

/// What a mark holds, what its changes leave, and which text is read of it while it is laid.
pub fn mark_laws()
    ensures read { WholeIsRead }
    ensures whole { BegunIsWhole }
    ensures unrefused { BegunIsUnrefused }
    ensures told { BegunIsTold }
    ensures synced { SyncedIsTold }
    ensures byte { TornByteIsByte }
{}

/// What a stop may leave of changes under such a mark, and of the run whole.
pub fn gated_laws()
    ensures images { RunIsImage }
    ensures under { BodyIsUnder }
    ensures marked { UnderIsMarked }
    ensures ended { EndIsLeft }
    ensures to_end { UnderIsEnded }
    ensures joined { LaidThenUnder }
    ensures safe { RunIsSafe }
    ensures told { GatedIsTold }
    ensures complete { CompleteIsUnder }
{}
