// What follows from the definitions, for callers: each function's contract is a law.
ghost use Rattle.file_edits.specs.Laws.{CutAlike, CutElsewhere, CutOfNone, CutStands, EditedAlike, EditedElsewhere, EditedStands, FolderAlike, NamesAlike, OwnElsewhere, OwnInTurn, OwnIsWider, OwnSpares, ReadAlike, RemovedAlike, RemovedElsewhere, RemovedIsGone, SizeAlike, SparedAtAnyStop, SparedInTurn, SparedStays, TreeAlike, TreeAnswersAlike, TreeElsewhere, TreeIsGone, WayAlike, WayElsewhere, WayStands};

/// What stands at a path, and at every other, after a file was edited, cut or removed there, or
/// a folder with all that it holds, or after the folders on the way were made.
pub fn edit_laws()
    ensures edited { EditedStands }
    ensures edited_elsewhere { EditedElsewhere }
    ensures way { WayStands }
    ensures way_elsewhere { WayElsewhere }
    ensures cut { CutStands }
    ensures cut_none { CutOfNone }
    ensures cut_elsewhere { CutElsewhere }
    ensures removed { RemovedIsGone }
    ensures removed_elsewhere { RemovedElsewhere }
    ensures tree { TreeIsGone }
    ensures tree_elsewhere { TreeElsewhere }
{}

/// Where changing calls are at paths of one's own, all else is as it was, also after an error.
pub fn own_laws()
    ensures elsewhere { OwnElsewhere }
    ensures in_turn { OwnInTurn }
    ensures wider { OwnIsWider }
{}

/// Where changing calls each spare a piece of a file, it keeps its bytes, also after an error and
/// after a stop.
pub fn sparing_laws()
    ensures stays { SparedStays }
    ensures at_any_stop { SparedAtAnyStop }
    ensures in_turn { SparedInTurn }
    ensures own { OwnSpares }
{}

/// Trees that are alike below two roots stay alike, and each call answers the same of both.
///
/// A folder that is to go with all that it holds may be refused for its depth, which is counted with
/// the root's parts: so of that answer the law asks for roots of as many parts, or for trees in which
/// no path below the folder has more than 64.
pub fn alike_laws()
    ensures edited { EditedAlike }
    ensures way { WayAlike }
    ensures cut { CutAlike }
    ensures removed { RemovedAlike }
    ensures tree { TreeAlike }
    ensures tree_answers { TreeAnswersAlike }
    ensures folder { FolderAlike }
    ensures size { SizeAlike }
    ensures names { NamesAlike }
    ensures read { ReadAlike }
{}
