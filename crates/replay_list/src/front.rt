// The lines at the front of a text, each in its place.
ghost use Rattle.std.specs.Prelude.{◌≡◌, ◌≤◌, ◌<◌, ◌+◌, ◌^◌, [], length, map, string_bytes, IfOk};
ghost use Rattle.replay_list.specs.Lines.{files_behind, way_to};
ghost use Rattle.replay_list.specs.Reading.{first_listed, front_in, has_place, in_place, next_listed};

use crate::areas::is_listed;
use crate::listed::Listed;
use crate::saying::listed_of;
use cluster_tree::{OutOfMemory, Path};
use mark_lines::{first_line, way_of, words_of};
use std::alloc::Global;

/// Where a line stands: behind this way, and behind lines of so many files of no main fork.
#[derive(Drop)]
pub(crate) struct Place {
    /// The way in the line before, and nothing in front of all.
    pub(crate) last: String,
    /// How many lines of other files stand before.
    pub(crate) files: u64,
}

/// Whether a path is listed, and above the way before it.
fn has_place(alloc: Global, root: &Path, last: &str, path: &Path) -> Result<bool, OutOfMemory>
    ensures { IfOk result (λ has. has ≡ has_place root.now last.now path.now) }
{
    let way = way_of(alloc, root, path)?;
    Ok(is_listed(root, path) && last.as_bytes().cmp(way.as_bytes()).is_lt())
}

/// What is listed, where it has its place.
fn in_place(
    alloc: Global,
    root: &Path,
    last: &str,
    listed: Listed,
) -> Result<Option<Listed>, OutOfMemory>
    ensures { IfOk result (λ placed. placed ≡ in_place root.now last.now listed) }
{
    if has_place(alloc, root, last, listed.path())? {
        Ok(Some(listed))
    } else {
        Ok(None)
    }
}

/// What a line says that is in its place.
fn next_listed(
    alloc: Global,
    root: &Path,
    place: &Place,
    line: &[u8],
) -> Result<Option<Listed>, OutOfMemory>
    ensures { IfOk result (λ listed. listed
        ≡ next_listed root.now (string_bytes place.now.last) place.now.files line.now) }
{
    let words = words_of(alloc, line)?;
    match listed_of(alloc, root, place.files, &words)? {
        Some(listed) => in_place(alloc, root, &place.last, listed),
        None => Ok(None),
    }
}

/// What the first line says, in its place.
fn first_listed(
    alloc: Global,
    root: &Path,
    place: &Place,
    pieces: &[&[u8]],
) -> Result<Option<Listed>, OutOfMemory>
    ensures { IfOk result (λ listed. listed ≡ first_listed root.now
        (string_bytes place.now.last) place.now.files (map (λ piece. piece.now) pieces.now)) }
{
    match first_line(pieces) {
        Some((line, _)) => next_listed(alloc, root, place, line),
        None => Ok(None),
    }
}

/// The place behind what is listed.
fn behind(alloc: Global, root: &Path, files: u64, listed: &Listed) -> Result<Place, OutOfMemory>
    requires { files + 1 < 2 ^ 64 }
    ensures way { IfOk result (λ place. string_bytes place.last ≡ way_to root.now listed.now) }
    ensures files { IfOk result (λ place. place.files ≡ files_behind files listed.now) }
{
    Ok(Place {
        last: way_of(alloc, root, listed.path())?,
        files: listed.files_behind(files),
    })
}

/// What the lines at the front say, each in its place.
pub(crate) fn front_in(
    alloc: Global,
    root: &Path,
    pieces: &[&[u8]],
) -> Result<Vec<Listed>, OutOfMemory>
    ensures listed { IfOk result (λ listed. listed.items
        ≡ front_in root.now [] 0 (map (λ piece. piece.now) pieces.now)) }
    ensures within { IfOk result (λ listed. length listed.items ≤ length pieces.now) }
{
    let mut listed = Vec::new(alloc);
    let mut place = Place {
        last: String::new(alloc),
        files: 0,
    };
    while let Some(next) = first_listed(alloc, root, &place, &pieces[listed.len()..])? {
        place = behind(alloc, root, place.files, &next)?;
        listed.push(next)?;
    }
    Ok(listed)
}
