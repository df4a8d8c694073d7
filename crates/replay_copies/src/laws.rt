// What a mark that was laid tells: a contract that is a law.
ghost use Rattle.replay_copies.specs.Laws.{EndedIsTold, LaidIsTold, LaidStands, ShutIsNotBegun, StandingIsTold};

/// What is laid tells a replay that was begun, with its list, whatever other byte than `+` stands in the
/// place of the second gate, and with that gate open that one had ended; a mark that is shut tells
/// that none was begun.
pub fn mark_laws()
    ensures laid { LaidIsTold }
    ensures stands { LaidStands }
    ensures standing { StandingIsTold }
    ensures ended { EndedIsTold }
    ensures shut { ShutIsNotBegun }
{}
