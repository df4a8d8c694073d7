// The first parts of a path that has too many.
ghost use Rattle.std.specs.Prelude.{◌≡◌, [], Err, IfOk};
ghost use Rattle.cluster_tree.specs.PathValue.{is_kept, is_rooted, path_of};
ghost use Rattle.cluster_tree.specs.Paths.{checked};
ghost use Rattle.tool_words.specs.Paths.{front_of};

use cluster_tree::{OutOfMemory, Path, PathFault};
use std::alloc::Global;

const MOST_IN_PATH: usize = 64;

fn is_kept(piece: &str) -> bool
    ensures { result ≡ is_kept piece.now }
{
    !piece.is_empty() && piece != "."
}

// The path with no part, absolute where the text is. The only refusal is `OutOfMemory`.
fn start(alloc: Global, text: &str) -> Result<Path, PathFault>
    ensures { IfOk result (λ path. path ≡ path_of (is_rooted text.now) []) }
{
    if text.starts_with('/') {
        Path::parse(alloc, "/")
    } else {
        Path::parse(alloc, ".")
    }
}

/// The path of the first 64 parts of a text that `Path::parse` refuses as too deep.
#[tactic(auto, unfolding(crate::specs::Paths::front_of))]
pub(crate) fn first_parts(alloc: Global, text: &str) -> Result<Path, OutOfMemory>
    requires { checked 0 text.now ≡ Err PathFault.TooDeep }
    ensures { IfOk result (λ path. path ≡ front_of text.now) }
{
    let Ok(mut front) = start(alloc, text) else {
        return Err(OutOfMemory);
    };
    for part in text
        .split('/')
        .filter(|piece| is_kept(piece))
        .take(MOST_IN_PATH)
    {
        front = front.below(alloc, part)?;
    }
    Ok(front)
}
