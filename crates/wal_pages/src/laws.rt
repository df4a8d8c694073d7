//! Laws of pages, each proved on a function that does nothing.

ghost use Rattle.wal_pages.specs.Laws.{ValidIsUnbroken, ReadIsValid, PageIsLogBytes, PageIsPayload, PagesAreOfFiles, KnownByFiles};

/// What makes a page valid, and what a page that is read then is: the rules of its fields, the
/// bytes of the log at its positions, and what the log carries there.
pub fn page_laws()
    ensures unbroken { ValidIsUnbroken }
    ensures valid { ReadIsValid }
    ensures bytes { PageIsLogBytes }
    ensures payload { PageIsPayload }
{}

/// A log is a function of its segments' files: in two folders that have the same ones its pages are
/// the same, or refused for the same reason, and a cursor that knows its log in the one knows it in
/// the other.
pub fn pages_are_of_files()
    ensures pages { PagesAreOfFiles }
    ensures known { KnownByFiles }
{}
