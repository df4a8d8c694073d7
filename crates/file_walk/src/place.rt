// Where a walk stands.
ghost use Rattle.std.specs.Prelude.{◌≡◌, ◌≤◌, ◌⊎◌, ◌∷◌, [], length, string_bytes, true, false, IfOk};
ghost use Rattle.cluster_tree.specs.PathValue.{below, front, is_part, path_text};
ghost use Rattle.file_walk.specs.Actions.{here};
ghost use Rattle.cluster_tree.specs.declared.file_fault.FileFault.TheVariants as file;

use crate::fault::WalkFault;
use cluster_tree::{FileFault, OutOfMemory, Path, PathFault};
use std::alloc::Global;

/// How many parts a path has at most.
pub(crate) const MAX_PARTS: usize = 64;

/// A path, from the root on and in the tree.
#[derive(Drop)]
pub(crate) struct Place {
    /// From the root on.
    pub(crate) own: Path,
    /// In the tree, with the parts of the root.
    pub(crate) full: Path,
}

/// The path of no part, at which a walk begins.
pub(crate) fn here(alloc: Global) -> Result<Path, OutOfMemory>
    ensures { IfOk result (λ path. path ≡ here) }
{
    match Path::parse(alloc, ".") {
        Ok(path) => Ok(path),
        Err(PathFault::OutOfMemory) => Err(OutOfMemory),
        Err(PathFault::Empty | PathFault::DotDot | PathFault::TooDeep) => unreachable!(),
    }
}

impl Place {
    /// The root itself.
    pub(crate) fn root(alloc: Global, root: &Path) -> Result<Place, OutOfMemory>
        ensures own { IfOk result (λ place. place.own ≡ here) }
        ensures full { IfOk result (λ place. place.full ≡ root.now) }
    {
        Ok(Place {
            own: here(alloc)?,
            full: root.copy(alloc)?,
        })
    }

    /// What has this name in this folder.
    pub(crate) fn child(&self, alloc: Global, name: &str) -> Result<Place, OutOfMemory>
        requires own_room { length self.now.own.parts ≤ 63 }
        requires full_room { length self.now.full.parts ≤ 63 }
        requires proper { is_part name.now ≡ true }
        ensures own { IfOk result (λ place. place.own ≡ below self.now.own (name.now ∷ [])) }
        ensures full { IfOk result (λ place. place.full ≡ below self.now.full (name.now ∷ [])) }
    {
        Ok(Place {
            own: self.own.below(alloc, name)?,
            full: self.full.below(alloc, name)?,
        })
    }

    /// The path of a name in this folder, or its first 64 parts where it has more.
    pub(crate) fn first_parts(&self, alloc: Global, name: &str) -> Result<Path, OutOfMemory>
        requires proper { is_part name.now ≡ true }
        requires room { length self.now.own.parts ≤ 64 }
        ensures { IfOk result (λ path. path ≡ front 64 (below self.now.own (name.now ∷ []))) }
    {
        if self.own.len() < MAX_PARTS {
            self.own.below(alloc, name)
        } else {
            self.own.copy(alloc)
        }
    }

    /// The text of the path of a name in this folder.
    pub(crate) fn text_of(&self, alloc: Global, name: &str) -> Result<String, OutOfMemory>
        requires relative { self.now.own.absolute ≡ false }
        ensures { IfOk result (λ text. string_bytes text
            ≡ path_text (below self.now.own (name.now ∷ []))) }
    {
        if self.own.len() == 0 {
            return Ok(String::from_str(alloc, name)?);
        }
        let folder = &self.own;
        Ok(format!(in alloc; "{folder}/{name}")?)
    }

    /// That the tree said something else of this path before; or that there is no memory to say so.
    pub(crate) fn changed(&self, alloc: Global) -> WalkFault
        ensures { (result ≡ WalkFault.File (file.Changed self.now.full))
            ⊎ (result ≡ WalkFault.File file.OutOfMemory) }
    {
        WalkFault::File(match self.full.copy(alloc) {
            Ok(path) => FileFault::Changed(path),
            Err(OutOfMemory) => FileFault::OutOfMemory,
        })
    }
}
