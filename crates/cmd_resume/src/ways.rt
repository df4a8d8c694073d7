// The way from a root to a path below it.
ghost use Rattle.std.specs.Prelude.{◌≡◌, [], IfOk, false};
ghost use Rattle.cluster_tree.specs.PathValue.{path_of};
ghost use Rattle.cmd_resume.specs.Resume.{way_from};

use cluster_tree::{OutOfMemory, Path, PathFault};
use std::alloc::Global;

// A path without parts.
fn no_way(alloc: Global) -> Result<Path, OutOfMemory>
    ensures { IfOk result (λ path. path ≡ path_of false []) }
{
    match Path::parse(alloc, ".") {
        Ok(path) => Ok(path),
        Err(PathFault::OutOfMemory) => Err(OutOfMemory),
        Err(PathFault::Empty | PathFault::DotDot | PathFault::TooDeep) => unreachable!(),
    }
}

/// The way from a root to a path below it: the path's parts behind as many as the root has.
pub(crate) fn way_from(alloc: Global, root: &Path, path: &Path) -> Result<Path, OutOfMemory>
    ensures { IfOk result (λ way. way ≡ way_from root.now path.now) }
{
    let mut way = no_way(alloc)?;
    for at in root.len()..path.len() {
        let Some(part) = path.part(at) else {
            unreachable!()
        };
        way = way.below(alloc, part)?;
    }
    Ok(way)
}
