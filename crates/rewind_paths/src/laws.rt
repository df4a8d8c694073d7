// Where the changes of a rewind go: the function's contract is a law.
ghost use Rattle.rewind_paths.specs.Laws.{RewindIsOfTarget};

/// Every change of a rewind that is needed is of the target.
pub fn rewind_is_of_target()
    ensures { RewindIsOfTarget }
{}
