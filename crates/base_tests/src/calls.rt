// The expected values follow from the table of calls, worked by hand.

pub(crate) const KINDS: &str = "\
kind . = Ok(Folder)
kind t = Ok(Folder)
kind t/f = Ok(File)
kind t/l = Err(Link)
kind t/f/g = Ok(Absent)
kind /t/f = Ok(Absent)";

// Four calls made the tree, and none that is refused is a change.
pub(crate) const REFUSED: &str = "\
changes = 4
list t/g = Err(Absent)
list t/f = Err(NotFolder)
list t/l = Err(Link)
list t/b = Err(NameNotText)
size / = Err(IsFolder)
size t/l = Err(Link)
read t/g = Err(Absent)
write_x t = Err(IsFolder)
write_x /t/f = Err(Absent)
cut t/l = Err(Link)
cut t/f = Err(PastEnd)
make_file t/f = Err(Exists)
make_file / = Err(Exists)
make_file u/g = Err(Absent)
make_folder t/f/g = Err(NotFolder)
make_folder t/l/g = Err(Link)
remove t/g = Err(Absent)
remove t = Err(NotEmpty)
remove t/b = Err(NotEmpty)
remove . = Err(NotEmpty)
remove t/l = Err(Link)
changes = 4";

pub(crate) const WRITTEN: &str = "\
write 1 EL = hELlo
write 3 LOWER = hELLOWER
write 8  = hELLOWER
write 8 ! = hELLOWER!";

pub(crate) const REWRITTEN: &str = "\
write 1 ELLOWER! = hELLOWER!
shorten 5 = hELLO
rewrite new = new";

pub(crate) const LISTED: &str = "\
sorted é b a.b B = B a.b b é ";

// Four calls made the tree, of which the last makes a folder.
pub(crate) const CHANGES: &str = "\
changes = 4
synced 3 = false
make_file t/g = Ok(())
remove t/g = Ok(())
sync t = Ok(())
changes = 7
synced 6 = true
synced 7 = false";
