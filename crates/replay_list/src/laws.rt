// What was written is read again, and what is read was so written: contracts that are laws.
ghost use Rattle.replay_list.specs.Laws.{ListTextsAreRead, ListsHaveOneText, ReadListsAreListed};

/// The text of a list below a root says that list.
pub fn list_texts_are_read()
    ensures { ListTextsAreRead }
{}

/// What a text says is a list below the root, and the text is that of this list.
pub fn read_lists_are_listed()
    ensures listed { ReadListsAreListed }
    ensures text { ListsHaveOneText }
{}
