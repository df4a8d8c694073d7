// A tree in which the file at one path isn't seen.
ghost use Rattle.std.specs.Prelude.{◌<◌, length};

use crate::answers::{seen_kind, unlisted, unseen};
use crate::names::{are_same, name_in, without};
use cluster_tree::{Kind, Names, Path, Tree, TreeFault};
use std::alloc::Global;

/// A tree in which the file at one path isn't seen: each read answers as if nothing stood there. It is for reading alone:
/// each changing call fails, and changes nothing.
#[derive(Drop)]
pub struct WithoutFile<'t, 'f, F: Tree> {
    /// The tree with the file.
    pub tree: &'t mut F,
    /// The path, which isn't the root or the current folder.
    pub file: &'f Path,
    ghost deep: { 0 < length file.now.parts },
}

impl<F: Tree> Tree for WithoutFile<'_, '_, F> {
    ghost use Rattle.std.specs.Prelude.{◌+◌, ◌^◌};
    ghost use Rattle.without_file.specs.Without.{all_below, without_file};
    ghost use Rattle.without_file.specs.Rooted.{without-tree};

    ghost tells = { F.tells };

    ghost contents = { λ w. without_file (F.contents w.tree.now) w.file.now };

    ghost calls = { λ w. F.calls w.tree.now };

    ghost stops = { λ w. all_below (F.contents w.tree.now) (F.stops w.tree.now) w.tree.ghost_name };

    ghost failed_reads = { λ w. F.failed_reads w.tree.now };

    // (it stands above the last value of a count, so that no failed call has to raise it)
    ghost failed_changes = { λ w. F.failed_changes w.tree.now + 2 ^ 64 };

    ghost is_tree = { λ told w. without-tree (F.contents w.tree.now) w.file.now (F.is_tree told w.tree.now) };

    fn kind(&mut self, path: &Path) -> Result<Kind, TreeFault> {
        let found = self.tree.kind(path);
        seen_kind(are_same(path, self.file), found)
    }

    fn list(&mut self, alloc: Global, path: &Path) -> Result<Names, TreeFault> {
        let found = self.tree.list(alloc, path);
        let names = match unlisted(are_same(path, self.file), found) {
            Ok(names) => names,
            Err(fault) => return Err(fault),
        };
        let Some(name) = name_in(self.file, path) else {
            return Ok(names);
        };
        match self.tree.kind(self.file) {
            Ok(Kind::File) => Ok(without(alloc, &names, name)?),
            Err(TreeFault::Failed) => Err(TreeFault::Failed),
            _ => Ok(names),
        }
    }

    fn size(&mut self, path: &Path) -> Result<u64, TreeFault> {
        let found = self.tree.size(path);
        unseen(are_same(path, self.file), found)
    }

    fn read_at(&mut self, path: &Path, at: u64, into: &mut [u8]) -> Result<(), TreeFault> {
        let found = self.tree.read_at(path, at, into);
        unseen(are_same(path, self.file), found)
    }

    fn write_at(&mut self, _path: &Path, _at: u64, _bytes: &[u8]) -> Result<(), TreeFault> {
        Err(TreeFault::Failed)
    }

    fn cut(&mut self, _path: &Path, _size: u64) -> Result<(), TreeFault> {
        Err(TreeFault::Failed)
    }

    fn make_file(&mut self, _path: &Path) -> Result<(), TreeFault> {
        Err(TreeFault::Failed)
    }

    fn make_folder(&mut self, _path: &Path) -> Result<(), TreeFault> {
        Err(TreeFault::Failed)
    }

    fn remove(&mut self, _path: &Path) -> Result<(), TreeFault> {
        Err(TreeFault::Failed)
    }

    fn sync(&mut self) -> Result<(), TreeFault> {
        Err(TreeFault::Failed)
    }
}
