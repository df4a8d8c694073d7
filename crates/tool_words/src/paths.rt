// The paths that texts in words name.
ghost use Rattle.std.specs.Prelude.{◌≡◌, ◌≤◌, ◌⊎◌, length, Err, IfOk};
ghost use Rattle.cluster_tree.specs.Causes.{Meets};
ghost use Rattle.cluster_tree.specs.PathValue.{parsed};
ghost use Rattle.cluster_tree.specs.Paths.{checked, Refuses};
ghost use Rattle.commands.specs.Faults.{IsFree};
ghost use Rattle.tool_words.specs.Paths.{front_of, path_named};

use crate::front::first_parts;
use cluster_tree::{Path, PathFault};
use commands::CommandFault;
use std::alloc::Global;

/// A root leaves room for the files below it, up to the 64 parts of a path.
pub(crate) const MOST_OF_ROOT: usize = 61;

/// A pair's folder leaves room for its three clusters.
pub(crate) const MOST_OF_PAIR: usize = 60;

/// A folder leaves room for pg_wal and a file in it.
pub(crate) const MOST_OF_FOLDER: usize = 62;

// The fault of a text with too many parts.
fn too_deep(alloc: Global, text: &str) -> CommandFault
    requires { checked 0 text.now ≡ Err PathFault.TooDeep }
    ensures { (result ≡ CommandFault.TooDeep (front_of text.now)) ⊎ (result ≡ CommandFault.OutOfMemory) }
{
    match first_parts(alloc, text) {
        Ok(front) => CommandFault::TooDeep(front),
        Err(_) => CommandFault::OutOfMemory,
    }
}

/// The path of a text, by what the text was read as. Answers `Usage` where it is empty, `DotDot` where
/// it has a part `..`, and `TooDeep` where it has more than `most` parts.
#[tactic(auto, using(crate::proofs::PathLemmas::read_steps), unfolding(crate::specs::Paths::path_named))]
pub(crate) fn path_read(
    alloc: Global,
    most: usize,
    text: &str,
    read: Result<Path, PathFault>,
) -> Result<Path, CommandFault>
    requires refused { Refuses (checked 0 text.now) read }
    requires parsed { IfOk read (λ path. path ≡ parsed text.now) }
    ensures answer { Meets IsFree (path_named most text.now) result }
    ensures fit { IfOk result (λ path. length path.parts ≤ most) }
{
    match read {
        Ok(path) => {
            if path.len() > most {
                return Err(CommandFault::TooDeep(path));
            }
            Ok(path)
        }
        Err(PathFault::Empty) => Err(CommandFault::Usage),
        Err(PathFault::DotDot) => Err(CommandFault::DotDot),
        Err(PathFault::TooDeep) => Err(too_deep(alloc, text)),
        Err(PathFault::OutOfMemory) => Err(CommandFault::OutOfMemory),
    }
}

/// The path of a text, with the answers of `path_read`.
pub(crate) fn path_named(alloc: Global, most: usize, text: &str) -> Result<Path, CommandFault>
    ensures answer { Meets IsFree (path_named most text.now) result }
    ensures fit { IfOk result (λ path. length path.parts ≤ most) }
{
    let read = Path::parse(alloc, text);
    path_read(alloc, most, text, read)
}
