// Where a path stands in a list whose ways rise, as those that a mark holds do: a way is the parts of a path with slashes between.
ghost use Rattle.std.specs.Prelude.{◌<◌, length, IfSome};

use cluster_tree::Path;
use replay_list::Listed;
use std::cmp::Ordering;

// The byte of a way behind so many bytes of a part: a slash where that ends and another part follows.
fn byte_behind(part: &[u8], at: usize, is_last: bool) -> Option<u8> {
    match part.get(at) {
        Some(byte) => Some(*byte),
        None if is_last => None,
        None => Some(b'/'),
    }
}

// The order of two ways from their first parts that differ, and whether these are their last.
fn order_of_parts(part: (&[u8], bool), other: (&[u8], bool)) -> Ordering {
    let size = part.0.len().min(other.0.len());
    match part.0[..size].cmp(&other.0[..size]) {
        Ordering::Equal => {
            byte_behind(part.0, size, part.1).cmp(&byte_behind(other.0, size, other.1))
        }
        order => order,
    }
}

// The order of the ways to two paths from a root of both.
fn order_of(path: &Path, other: &Path) -> Ordering {
    for (at, (part, its)) in path.parts().iter().zip(other.parts()).enumerate() {
        if part != its {
            let part = (part.as_bytes(), at + 1 == path.len());
            return order_of_parts(part, (its.as_bytes(), at + 1 == other.len()));
        }
    }
    path.len().cmp(&other.len())
}

/// Where a path stands in a list whose ways rise, if it does. Of another list nothing is said.
pub(crate) fn place_in(listed: &[Listed], path: &Path) -> Option<usize>
    ensures place { IfSome result (λ at. at < length listed.now) }
{
    listed
        .binary_search_by(|one| order_of(one.path(), path))
        .ok()
}
