// Paths below a root, in a mark's text.
ghost use Rattle.std.specs.Prelude.{◌≡◌, ◌+◌, ◌≤◌, ◌&&◌, length, string_bytes, bytes_eq, IfOk};
ghost use Rattle.std.specs.List.{join_with_byte};
ghost use Rattle.std.specs.Option.{option_map};
ghost use Rattle.cluster_tree.specs.PathValue.{kept_parts, parsed};
ghost use Rattle.mark_lines.specs.Paths.{is_shown, is_way, way_in};

use crate::words::bytes_in;
use cluster_tree::{OutOfMemory, Path, PathFault};
use std::alloc::Global;
use std::str;

/// Whether a path is one below a root of so many parts, and is shown as this text.
fn is_shown(alloc: Global, depth: usize, path: &Path, text: &str) -> Result<bool, OutOfMemory>
    requires { depth ≤ 64 }
    ensures { IfOk result (λ is. is ≡ is_shown depth path.now text.now) }
{
    if path.is_absolute() || path.len() == 0 || path.len() + depth > 64 {
        return Ok(false);
    }
    let shown = format!(in alloc; "{path}")?;
    Ok(shown.as_str() == text)
}

/// Whether a text is the way to a path below a root of so many parts.
fn is_way(alloc: Global, depth: usize, text: &str) -> Result<bool, OutOfMemory>
    requires { depth ≤ 64 }
    ensures { IfOk result (λ is. is ≡ is_way depth text.now) }
{
    match Path::parse(alloc, text) {
        Ok(path) => is_shown(alloc, depth, &path, text),
        Err(PathFault::OutOfMemory) => Err(OutOfMemory),
        Err(_) => Ok(false),
    }
}

/// The way below a root of so many parts that a word says as digits, or `None` where it says none: where it isn't in
/// UTF-8, isn't what would be written, is absolute, or has no room below the root. Answers `OutOfMemory` only for want
/// of memory.
pub fn way_in(alloc: Global, depth: usize, word: &[u8]) -> Result<Option<String>, OutOfMemory>
    requires depth { depth ≤ 64 }
    ensures value { IfOk result (λ way. option_map string_bytes way ≡ way_in depth word.now) }
{
    let Some(bytes) = bytes_in(alloc, word)? else {
        return Ok(None);
    };
    let Ok(text) = str::from_utf8(&bytes) else {
        return Ok(None);
    };
    if is_way(alloc, depth, text)? {
        Ok(Some(String::from_str(alloc, text)?))
    } else {
        Ok(None)
    }
}
