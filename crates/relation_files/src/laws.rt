// What follows from the definitions, for callers.
ghost use Rattle.relation_files.specs.Laws.{NamesAreFiles};

/// A name is that of a file exactly where it is what that file shows as.
pub fn names_are_files()
    ensures { NamesAreFiles }
{}
