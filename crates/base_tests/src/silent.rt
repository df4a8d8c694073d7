// A tree that tells nothing, as one over the machine's files: its device always fails.
ghost use Rattle.std.specs.Prelude.{◌≡◌, ◌≤◌};
ghost use Rattle.cluster_tree.specs.Causes.{Rose};

use crate::callers::{VERBS, ended};
use crate::texts::path_of;
use cluster_tree::{Kind, Names, Path, Tree, TreeFault};
use std::alloc::Global;
use std::process::Abort;

#[derive(Drop)]
struct SilentTree {
    failed_reads: u64,
    failed_changes: u64,
}

impl SilentTree {
    // A read that fails.
    fn read_failed(&mut self) -> TreeFault
        ensures fault { result ≡ TreeFault.Failed }
        ensures rose { Rose self.old.failed_reads self.new.failed_reads }
        ensures later { self.old.failed_reads ≤ self.new.failed_reads }
        ensures changes { self.new.failed_changes ≡ self.old.failed_changes }
    {
        self.failed_reads = self.failed_reads.saturating_add(1);
        TreeFault::Failed
    }

    // A changing call that fails.
    fn change_failed(&mut self) -> TreeFault
        ensures fault { result ≡ TreeFault.Failed }
        ensures rose { Rose self.old.failed_changes self.new.failed_changes }
        ensures later { self.old.failed_changes ≤ self.new.failed_changes }
        ensures reads { self.new.failed_reads ≡ self.old.failed_reads }
    {
        self.failed_changes = self.failed_changes.saturating_add(1);
        TreeFault::Failed
    }
}

impl Tree for SilentTree {
    ghost use Rattle.std.specs.Prelude.{false, []};
    ghost use Rattle.std.specs.FinMap.{empty};
    ghost use Rattle.cluster_tree.specs.Untold.{untold};

    ghost tells = { false };

    ghost contents = { λ t. empty };

    ghost calls = { λ t. [] };

    ghost failed_reads = { λ t. t.failed_reads };

    ghost failed_changes = { λ t. t.failed_changes };

    ghost is_tree = { λ told t. untold told };

    fn kind(&mut self, _path: &Path) -> Result<Kind, TreeFault> {
        Err(self.read_failed())
    }

    fn list(&mut self, _alloc: Global, _path: &Path) -> Result<Names, TreeFault> {
        Err(self.read_failed())
    }

    fn size(&mut self, _path: &Path) -> Result<u64, TreeFault> {
        Err(self.read_failed())
    }

    fn read_at(&mut self, _path: &Path, _at: u64, _into: &mut [u8]) -> Result<(), TreeFault> {
        Err(self.read_failed())
    }

    fn write_at(&mut self, _path: &Path, _at: u64, _bytes: &[u8]) -> Result<(), TreeFault> {
        Err(self.change_failed())
    }

    fn cut(&mut self, _path: &Path, _size: u64) -> Result<(), TreeFault> {
        Err(self.change_failed())
    }

    fn make_file(&mut self, _path: &Path) -> Result<(), TreeFault> {
        Err(self.change_failed())
    }

    fn make_folder(&mut self, _path: &Path) -> Result<(), TreeFault> {
        Err(self.change_failed())
    }

    fn remove(&mut self, _path: &Path) -> Result<(), TreeFault> {
        Err(self.change_failed())
    }

    fn sync(&mut self) -> Result<(), TreeFault> {
        Err(self.change_failed())
    }
}

fn check_fails<R: AllocGlobal + Abort>(rt: &R, tree: &mut SilentTree, verb: &str) {
    let end = ended(rt, tree, verb, &path_of(rt, "f"));
    assert!(rt; end == Err(TreeFault::Failed), "{verb}");
}

#[test]
fn a_tree_that_tells_nothing_fails_each_call(rt: HostRuntime) {
    let mut tree = SilentTree {
        failed_reads: 0,
        failed_changes: 0,
    };
    for verb in VERBS.split(' ') {
        check_fails(&rt, &mut tree, verb);
    }
    assert!(rt; (tree.failed_reads, tree.failed_changes) == (4, 6));
}
