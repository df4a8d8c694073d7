// Paths as words, and the lines of these.
ghost use Rattle.std.specs.Prelude.{◌≡◌, ◌+◌, ◌++◌, ◌<◌, ◌≤◌, ◌^◌, [], ◌∷◌, decimal, length, slice_range, string_bytes, true, IfOk, OnOk};
ghost use Rattle.std.specs.List.{join_with_byte};
ghost use Rattle.std.specs.Str.{is_utf8};
ghost use Rattle.mark_lines.specs.Words.{line};
ghost use Rattle.mark_lines.specs.Paths.{path_word, way_of};

use cluster_tree::{OutOfMemory, Path};
use std::alloc::Global;

/// Adds the part of a path at a place, behind a slash unless it is the first.
fn add_part(way: &mut String, path: &Path, first: usize, at: usize) -> Result<(), OutOfMemory>
    requires behind { first ≤ at }
    requires within { at < length path.now.parts }
    requires front { string_bytes way.old ≡ join_with_byte 47 (slice_range path.now.parts first at) }
    ensures { OnOk result (string_bytes way.new
        ≡ join_with_byte 47 (slice_range path.now.parts first (at + 1))) }
{
    let Some(part) = path.part(at) else {
        return Ok(());
    };
    if first < at {
        write!(way, "/{part}")?;
        return Ok(());
    }
    way.push_str(part)?;
    Ok(())
}

/// The way from a root to a path below it: its parts behind those of the root, joined by slashes. Answers `OutOfMemory` only
/// for want of memory.
pub fn way_of(alloc: Global, root: &Path, path: &Path) -> Result<String, OutOfMemory>
    ensures value { IfOk result (λ way. string_bytes way ≡ way_of root.now path.now) }
{
    let first = root.len();
    let mut way = String::new(alloc);
    for at in first..path.len() {
        add_part(&mut way, path, first, at)?;
    }
    Ok(way)
}

/// The word of a path below a root: the way to it, as digits 0 to 9 and a to f. Answers `OutOfMemory` only for want of
/// memory.
pub fn path_word(alloc: Global, root: &Path, path: &Path) -> Result<String, OutOfMemory>
    ensures value { IfOk result (λ word. string_bytes word ≡ path_word root.now path.now) }
    ensures text { OnOk result (is_utf8 (way_of root.now path.now) ≡ true) }
{
    let way = way_of(alloc, root, path)?;
    Ok(hex::encode(alloc, &way)?)
}

/// Adds the line of a word and a path. Answers `OutOfMemory` only for want of memory.
pub fn add_pathed(
    alloc: Global,
    text: &mut String,
    verb: &str,
    root: &Path,
    path: &Path,
) -> Result<(), OutOfMemory>
    ensures line { OnOk result (string_bytes text.new
        ≡ string_bytes text.old ++ line (verb.now ∷ path_word root.now path.now ∷ [])) }
    ensures text { OnOk result (is_utf8 (way_of root.now path.now) ≡ true) }
{
    let path = path_word(alloc, root, path)?;
    writeln!(text, "{verb} {path}")?;
    Ok(())
}

/// Adds the line of a word, a path and a size. Answers `OutOfMemory` only for want of memory.
pub fn add_sized(
    alloc: Global,
    text: &mut String,
    verb: &str,
    root: &Path,
    path: &Path,
    size: u64,
) -> Result<(), OutOfMemory>
    ensures line { OnOk result (string_bytes text.new
        ≡ string_bytes text.old ++ line (verb.now ∷ path_word root.now path.now ∷ decimal size ∷ [])) }
    ensures text { OnOk result (is_utf8 (way_of root.now path.now) ≡ true) }
{
    let path = path_word(alloc, root, path)?;
    writeln!(text, "{verb} {path} {size}")?;
    Ok(())
}
