// A tree in which only some of what lies below a root is seen.
ghost use Rattle.std.specs.Prelude.{◌≤◌, length};

use crate::names::{are_same, lies_elsewhere};
use crate::root::list_root;
use cluster_tree::{Kind, Names, Path, Tree, TreeFault};
use std::alloc::Global;

/// A tree in which, of what lies below a root, only `base`, `global`, `pg_multixact` and `pg_xact` are seen, and what lies
/// below them. What other names the root holds doesn't matter. It is for reading alone: each changing call fails, and
/// changes nothing.
#[derive(Drop)]
pub struct AreasAlone<'t, 'r, F: Tree> {
    /// The tree with all the root's names.
    pub tree: &'t mut F,
    /// The root, which has at most 63 parts.
    pub root: &'r Path,
    ghost room: { length root.now.parts ≤ 63 },
}

impl<F: Tree> Tree for AreasAlone<'_, '_, F> {
    ghost use Rattle.std.specs.Prelude.{◌+◌, ◌^◌};
    ghost use Rattle.without_file.specs.Without.{all_below};
    ghost use Rattle.areas_alone.specs.Alone.{areas_of};
    ghost use Rattle.areas_alone.specs.Rooted.{areas-tree};

    ghost tells = { F.tells };

    ghost contents = { λ w. areas_of (F.contents w.tree.now) w.root.now };

    ghost calls = { λ w. F.calls w.tree.now };

    ghost stops = { λ w. all_below (F.contents w.tree.now) (F.stops w.tree.now) w.tree.ghost_name };

    ghost failed_reads = { λ w. F.failed_reads w.tree.now };

    // (it stands above the last value of a count, so that no failed call has to raise it)
    ghost failed_changes = { λ w. F.failed_changes w.tree.now + 2 ^ 64 };

    ghost is_tree = { λ told w. areas-tree (F.contents w.tree.now) w.root.now (F.is_tree told w.tree.now) };

    fn kind(&mut self, path: &Path) -> Result<Kind, TreeFault> {
        if lies_elsewhere(self.root, path) {
            return Ok(Kind::Absent);
        }
        self.tree.kind(path)
    }

    fn list(&mut self, alloc: Global, path: &Path) -> Result<Names, TreeFault> {
        if lies_elsewhere(self.root, path) {
            return Err(TreeFault::Absent);
        }
        if are_same(path, self.root) {
            return list_root(alloc, self.tree, self.root);
        }
        self.tree.list(alloc, path)
    }

    fn size(&mut self, path: &Path) -> Result<u64, TreeFault> {
        if lies_elsewhere(self.root, path) {
            return Err(TreeFault::Absent);
        }
        self.tree.size(path)
    }

    fn read_at(&mut self, path: &Path, at: u64, into: &mut [u8]) -> Result<(), TreeFault> {
        if lies_elsewhere(self.root, path) {
            return Err(TreeFault::Absent);
        }
        self.tree.read_at(path, at, into)
    }

    fn write_at(&mut self, _path: &Path, _at: u64, _bytes: &[u8]) -> Result<(), TreeFault> {
        Err(TreeFault::Failed)
    }

    fn cut(&mut self, _path: &Path, _size: u64) -> Result<(), TreeFault> {
        Err(TreeFault::Failed)
    }

    fn make_file(&mut self, _path: &Path) -> Result<(), TreeFault> {
        Err(TreeFault::Failed)
    }

    fn make_folder(&mut self, _path: &Path) -> Result<(), TreeFault> {
        Err(TreeFault::Failed)
    }

    fn remove(&mut self, _path: &Path) -> Result<(), TreeFault> {
        Err(TreeFault::Failed)
    }

    fn sync(&mut self) -> Result<(), TreeFault> {
        Err(TreeFault::Failed)
    }
}
