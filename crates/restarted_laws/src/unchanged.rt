// Logs that change no block first.
ghost use Rattle.restarted_laws.specs.Unchanged.{UnchangedFirstAreAgain};

/// Where a log changes no block of a main fork first, it is enough that, in alike clusters, the blocks on
/// which it has no effect have in the one the bytes that they have in the other: a replay over the one
/// ends as over the other.
pub fn unchanged_first_are_again()
    ensures { UnchangedFirstAreAgain }
{}
