// Whether a list has a folder or a file at a path.
ghost use Rattle.std.specs.Prelude.{◌≡◌};
ghost use Rattle.cluster_tree.specs.PathOrder.{path_eq};
ghost use Rattle.replay_restore.specs.Listing.{has_file, has_folder, is_file_at, is_folder_at};

use crate::order::place_in;
use cluster_tree::Path;
use replay_list::Listed;

/// Whether two paths are the same.
pub(crate) fn is_same(path: &Path, other: &Path) -> bool
    ensures { result ≡ path_eq path.now other.now }
{
    path.is(other.is_absolute(), other.parts())
}

// Whether a folder is listed at a path.
fn is_folder_at(path: &Path, listed: &Listed) -> bool
    ensures { result ≡ is_folder_at path.now listed.now }
{
    match listed {
        Listed::Folder(at) => is_same(path, at),
        Listed::Page(..) | Listed::File(..) => false,
    }
}

/// Whether a file is.
pub(crate) fn is_file_at(path: &Path, listed: &Listed) -> bool
    ensures { result ≡ is_file_at path.now listed.now }
{
    match listed {
        Listed::Folder(_) => false,
        Listed::Page(at, _) | Listed::File(at, _) => is_same(path, at),
    }
}

// Whether a folder is listed at a path anywhere in a list.
fn is_any_folder_at(path: &Path, listed: &[Listed]) -> bool
    ensures { result ≡ has_folder listed.now path.now }
{
    for one in listed {
        if is_folder_at(path, one) {
            return true;
        }
    }
    false
}

// Whether a file is.
fn is_any_file_at(path: &Path, listed: &[Listed]) -> bool
    ensures { result ≡ has_file listed.now path.now }
{
    for one in listed {
        if is_file_at(path, one) {
            return true;
        }
    }
    false
}

/// Whether a list has a folder at a path. One that a mark held is in order, so that what it has is found by halves.
pub(crate) fn has_folder(listed: &[Listed], path: &Path) -> bool
    ensures { result ≡ has_folder listed.now path.now }
{
    match place_in(listed, path) {
        Some(at) if is_folder_at(path, &listed[at]) => true,
        _ => is_any_folder_at(path, listed),
    }
}

/// Whether a list has a file at a path, found as a folder is.
pub(crate) fn has_file(listed: &[Listed], path: &Path) -> bool
    ensures { result ≡ has_file listed.now path.now }
{
    match place_in(listed, path) {
        Some(at) if is_file_at(path, &listed[at]) => true,
        _ => is_any_file_at(path, listed),
    }
}
