// A path: an absolute mark and a list of parts.
ghost use Rattle.std.specs.Prelude.{◌≡◌, ◌++◌, ◌+◌, ◌≤◌, ◌↔◌, [], ◌∷◌, length, map, string_bytes, take, slice_get, true, IfOk, IfErr, OnOk, IsTrue, Some, Ok};
ghost use Rattle.std.specs.Option.{option_copied};
ghost use Rattle.std.specs.List.{list_all, list_any, join_with_byte};
ghost use Rattle.std.specs.Fmt.{WritesOnOk};
ghost use Rattle.cluster_tree.specs.PathValue.{path_of, parsed, below, front, pieces, is_dot_dot, is_kept, is_part, kept_parts, no_slash, path_text, Holds};
ghost use Rattle.cluster_tree.specs.PathOrder.{path_eq};
ghost use Rattle.cluster_tree.specs.Paths.{checked, Refuses};

use crate::{Names, OutOfMemory, PathFault};
use std::alloc::Global;
use std::fmt;
use std::marker::Model;

const MAX_PARTS: usize = 64;

/// A path below the current folder, or below the root where it is absolute, of at most 64 parts.
/// No part is empty, `.` or `..`, or holds a slash.
#[derive(Debug, Drop)]
pub struct Path {
    absolute: bool,
    parts: Vec<String>,
}

impl Model for Path {
    ghost use Rattle.std.specs.Prelude.{◌≡◌, ◌≤◌, true, map, string_bytes, length};
    ghost use Rattle.std.specs.List.{list_all};
    ghost use Rattle.cluster_tree.specs.PathValue.{PathValue, is_part};

    ghost Value = { PathValue };

    ghost view = { λ p. record { absolute = p.absolute; parts = map string_bytes p.parts.items } };

    ghost invariant = { λ p. (length p.parts.items ≤ 64)
        × (list_all is_part (map string_bytes p.parts.items) ≡ true) };
}

impl Path {
    /// The path of a text: its pieces between slashes, without the empty ones and `.`, and absolute
    /// where it begins with a slash. Answers `Empty` where the text is empty, `DotDot` where a
    /// piece is `..`, and `TooDeep` where more than 64 parts remain, in this order.
    pub fn parse(alloc: Global, text: &str) -> Result<Path, PathFault>
        ensures refused { Refuses (checked 0 text.now) result }
        ensures parsed { IfOk result (λ path. path ≡ parsed text.now) }
    {
        check(0, text)?;
        let mut parts = Vec::new(alloc);
        add_parts(alloc, &mut parts, text)?;
        Ok(Path {
            absolute: text.starts_with('/'),
            parts,
        })
    }

    /// This path with the parts of a text added, with the refusals of `parse`.
    pub fn join(&self, alloc: Global, part: &str) -> Result<Path, PathFault>
        ensures refused { Refuses (checked (length self.now.parts) part.now) result }
        ensures joined { IfOk result (λ path. path ≡ below self.now (kept_parts part.now)) }
    {
        check(self.parts.len(), part)?;
        Ok(self.below(alloc, part)?)
    }

    /// This path with the parts of a text added that isn't refused.
    pub fn below(&self, alloc: Global, text: &str) -> Result<Path, OutOfMemory>
        requires room { checked (length self.now.parts) text.now ≡ Ok tt }
        ensures { IfOk result (λ path. path ≡ below self.now (kept_parts text.now)) }
    {
        let mut parts = copy_parts(alloc, &self.parts)?;
        add_parts(alloc, &mut parts, text)?;
        Ok(Path {
            absolute: self.absolute,
            parts,
        })
    }

    /// Whether the other path is this one or lies below it.
    pub fn holds(&self, other: &Path) -> bool
        ensures { IsTrue result ↔ Holds self.now other.now }
    {
        self.absolute == other.absolute && begins_with(&other.parts, &self.parts)
    }

    /// An equal path.
    pub fn copy(&self, alloc: Global) -> Result<Path, OutOfMemory>
        ensures { IfOk result (λ path. path ≡ self.now) }
    {
        Ok(Path {
            absolute: self.absolute,
            parts: copy_parts(alloc, &self.parts)?,
        })
    }

    /// The path of its first parts, so many of them.
    pub fn front(&self, alloc: Global, parts: usize) -> Result<Path, OutOfMemory>
        requires { parts ≤ length self.now.parts }
        ensures { IfOk result (λ path. path ≡ front parts self.now) }
    {
        Ok(Path {
            absolute: self.absolute,
            parts: first_parts(alloc, &self.parts, parts)?,
        })
    }

    /// Whether it begins at the root.
    pub fn is_absolute(&self) -> bool
        ensures { result ≡ self.now.absolute }
    {
        self.absolute
    }

    /// How many parts it has.
    pub fn len(&self) -> usize
        ensures value { result ≡ length self.now.parts }
        ensures deepest { result ≤ 64 }
        ensures proper { list_all is_part self.now.parts ≡ true }
    {
        self.parts.len()
    }

    /// The part at a place, counted from 0, or `None` past the last.
    pub fn part(&self, at: usize) -> Option<&str>
        ensures { option_copied result ≡ slice_get self.now.parts at }
    {
        match self.parts.get(at) {
            Some(part) => Some(part.as_str()),
            None => None,
        }
    }

    /// Its text, as the one text of a list. The only refusal is `OutOfMemory`.
    pub fn text(&self, alloc: Global) -> Result<Names, PathFault>
        ensures text { IfOk result (λ names. names ≡ path_text self.now ∷ []) }
        ensures memory { IfErr result (λ fault. fault ≡ PathFault.OutOfMemory) }
    {
        let text = format!(in alloc; "{self}")?;
        let mut names = Names::new(alloc);
        names.push(&text)?;
        Ok(names)
    }

    /// Whether it is the path of this mark and these parts.
    pub fn is(&self, absolute: bool, parts: &[String]) -> bool
        ensures same { IsTrue result ↔ self.now ≡ path_of absolute (map string_bytes parts.now) }
        ensures test { result ≡ path_eq self.now (path_of absolute (map string_bytes parts.now)) }
    {
        self.absolute == absolute && same_parts(&self.parts, parts)
    }

    /// Its parts.
    pub fn parts(&self) -> &[String]
        ensures value { map string_bytes result.now ≡ self.now.parts }
        ensures proper { list_all is_part (map string_bytes result.now) ≡ true }
    {
        &self.parts
    }
}

impl fmt::Display for Path {
    ghost use Rattle.std.specs.Prelude.{Some};
    ghost use Rattle.cluster_tree.specs.PathValue.{path_text};

    ghost output = { λ path. Some (path_text path) };

    fn fmt<W: fmt::Write>(&self, f: &mut fmt::Formatter<W>) -> fmt::Result {
        if self.absolute {
            f.write_str("/")?;
        }
        match self.parts.as_slice() {
            [] if self.absolute => Ok(()),
            [] => f.write_str("."),
            [first, rest @ ..] => write_joined(first, rest, f),
        }
    }
}

// Writes this part and then the others, each behind a slash.
fn write_joined<W: fmt::Write>(
    first: &str,
    rest: &[String],
    f: &mut fmt::Formatter<W>,
) -> fmt::Result
    ensures { WritesOnOk W.write_str_gives f.old result
        (join_with_byte 47 (first.now ∷ map string_bytes rest.now)) f.new }
{
    f.write_str(first)?;
    for part in rest {
        write!(f, "/{part}")?;
    }
    Ok(())
}

// Whether two lists of parts are equal.
fn same_parts(these: &[String], those: &[String]) -> bool
    ensures { IsTrue result ↔ (map string_bytes these.now ≡ map string_bytes those.now) }
{
    these == those
}

// Whether these parts begin with those.
fn begins_with(parts: &[String], with: &[String]) -> bool
    ensures { IsTrue result ↔
        (take (length with.now) (map string_bytes parts.now) ≡ map string_bytes with.now) }
{
    with.len() <= parts.len() && same_parts(&parts[..with.len()], with)
}

// The first refusal of a text whose parts are to be added to this many parts.
fn check(have: usize, text: &str) -> Result<(), PathFault>
    requires { have ≤ 64 }
    ensures { checked have text.now ≡ result }
{
    if text.is_empty() {
        return Err(PathFault::Empty);
    }
    if has_dot_dot(text) {
        return Err(PathFault::DotDot);
    }
    if kept_count(text) > MAX_PARTS - have {
        return Err(PathFault::TooDeep);
    }
    Ok(())
}

fn is_kept(piece: &str) -> bool
    ensures { result ≡ is_kept piece.now }
{
    !piece.is_empty() && piece != "."
}

/// Whether a name can be a part of a path: it isn't empty, `.` or `..`, and has no slash.
pub fn is_part(name: &str) -> bool
    ensures { result ≡ is_part name.now }
{
    is_kept(name) && name != ".." && has_no_slash(name)
}

fn has_no_slash(name: &str) -> bool
    ensures { result ≡ list_all no_slash name.now }
{
    name.as_bytes().iter().all(|byte| *byte != b'/')
}

fn has_dot_dot(text: &str) -> bool
    ensures { result ≡ list_any is_dot_dot (pieces text.now) }
{
    text.split('/').any(|piece| piece == "..")
}

fn kept_count(text: &str) -> usize
    ensures { result ≡ length (kept_parts text.now) }
{
    text.split('/').filter(|piece| is_kept(piece)).count()
}

fn add_parts(alloc: Global, parts: &mut Vec<String>, text: &str) -> Result<(), OutOfMemory>
    ensures { OnOk result (map string_bytes parts.new.items ≡ map string_bytes parts.old.items
        ++ kept_parts text.now) }
{
    for piece in text.split('/') {
        if is_kept(piece) {
            parts.push(String::from_str(alloc, piece)?)?;
        }
    }
    Ok(())
}

// The first parts, so many of them.
fn first_parts(alloc: Global, parts: &[String], count: usize) -> Result<Vec<String>, OutOfMemory>
    requires { count ≤ length parts.now }
    ensures { IfOk result (λ first. map string_bytes first.items
        ≡ take count (map string_bytes parts.now)) }
{
    copy_parts(alloc, &parts[..count])
}

fn copy_parts(alloc: Global, parts: &[String]) -> Result<Vec<String>, OutOfMemory>
    ensures { IfOk result (λ copy. map string_bytes copy.items ≡ map string_bytes parts.now) }
{
    let mut copy = Vec::new(alloc);
    for part in parts {
        copy.push(part.clone()?)?;
    }
    Ok(copy)
}
