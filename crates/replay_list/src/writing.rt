// The text of a list.
ghost use Rattle.std.specs.Prelude.{◌≡◌, ◌++◌, ◌+◌, ◌<◌, ◌^◌, [], ◌∷◌, codes, decimal, string_bytes, true, IfOk, OnOk};
ghost use Rattle.std.specs.List.{All, list_all};
ghost use Rattle.std.specs.Str.{is_utf8};
ghost use Rattle.mark_lines.specs.Words.{line};
ghost use Rattle.mark_lines.specs.Paths.{path_word, way_of};
ghost use Rattle.replay_list.specs.Lines.{listed_lines, listed_words};
ghost use Rattle.replay_list.specs.Text.{IsHeld, IsSized, is_text, list_text};

use crate::listed::Listed;
use cluster_tree::{OutOfMemory, Path};
use mark_lines::{add_pathed, add_sized, path_word};
use std::alloc::Global;
use wal_base::Text;

/// Adds the line of a file of no main fork.
fn add_file(
    alloc: Global,
    text: &mut String,
    root: &Path,
    file: (&Path, u64),
    files: u64,
) -> Result<(), OutOfMemory>
    ensures line { OnOk result (string_bytes text.new ≡ string_bytes text.old
        ++ line (codes "file" ∷ path_word root.now file.entry.0.now ∷ decimal file.entry.1 ∷ decimal files ∷ [])) }
    ensures text { OnOk result (is_utf8 (way_of root.now file.entry.0.now) ≡ true) }
{
    let (path, size) = file;
    let path = path_word(alloc, root, path)?;
    writeln!(text, "file {path} {size} {files}")?;
    Ok(())
}

/// Adds the line of what is listed, behind lines of so many files of no main fork.
fn add_listed(
    alloc: Global,
    text: &mut String,
    root: &Path,
    files: u64,
    listed: &Listed,
) -> Result<(), OutOfMemory>
    ensures line { OnOk result (string_bytes text.new
        ≡ string_bytes text.old ++ line (listed_words root.now files listed.now)) }
    ensures text { OnOk result (is_text root.now listed.now ≡ true) }
    ensures size { IsSized listed.now }
{
    match listed {
        Listed::Folder(path) => add_pathed(alloc, text, "folder", root, path),
        Listed::Page(path, size) => add_sized(alloc, text, "page", root, path, *size),
        Listed::File(path, size) => add_file(alloc, text, root, (path, *size), files),
    }
}

/// Adds the lines of a list.
fn add_lines(
    alloc: Global,
    text: &mut String,
    root: &Path,
    listed: &[Listed],
) -> Result<(), OutOfMemory>
    ensures lines { OnOk result (string_bytes text.new
        ≡ string_bytes text.old ++ listed_lines root.now 0 listed.now) }
    ensures held { OnOk result (IsHeld root.now listed.now) }
{
    let mut files = 0;
    for one in listed {
        add_listed(alloc, text, root, files, one)?;
        files = one.files_behind(files);
    }
    Ok(())
}

/// The text of what stood at paths below a root. Answers `OutOfMemory` only for want of memory.
pub fn list_text(alloc: Global, root: &Path, listed: &[Listed]) -> Result<Text, OutOfMemory>
    ensures value { IfOk result (λ text. text ≡ list_text root.now listed.now) }
    // what a program holds has ways in UTF-8, and sizes of 64 bits
    ensures held { OnOk result (IsHeld root.now listed.now) }
{
    let mut text = String::new(alloc);
    add_lines(alloc, &mut text, root, listed)?;
    text.push_str("end\n")?;
    Ok(Text::from(text))
}
