// Where a path lies below a root.
ghost use Rattle.std.specs.Prelude.{◌≡◌, ◌+◌, ◌≤◌, length, IfOk};
ghost use Rattle.cluster_tree.specs.PathValue.{below};

use cluster_tree::{OutOfMemory, Path};
use std::alloc::Global;

/// The path in the tree of a path from a root on.
pub(crate) fn place(alloc: Global, root: &Path, path: &Path) -> Result<Path, OutOfMemory>
    requires room { length root.now.parts + length path.now.parts ≤ 64 }
    ensures { IfOk result (λ place. place ≡ below root.now path.now.parts) }
{
    let mut place = root.copy(alloc)?;
    for at in 0..path.len() {
        let Some(part) = path.part(at) else {
            unreachable!()
        };
        place = place.below(alloc, part)?;
    }
    Ok(place)
}

/// Where a path lies on either side.
#[derive(Drop)]
pub(crate) struct Places {
    /// In the source.
    pub(crate) from: Path,
    /// In the target.
    pub(crate) to: Path,
}
