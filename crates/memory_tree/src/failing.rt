// A tree in memory whose calls fail by a plan.
ghost use Rattle.std.specs.Prelude.{◌≡◌, ◌≤◌};
ghost use Rattle.std.specs.Bool.{OnTrue, OnFalse};
ghost use Rattle.cluster_tree.specs.Causes.{Rose};

use crate::{FailPlan, MemoryTree};
use cluster_tree::{Kind, Names, Path, Tree, TreeFault};
use std::alloc::Global;

/// A tree in memory whose calls fail by a plan, besides those that find no memory. A call that
/// the plan fails changes nothing and is not listed.
#[derive(Drop)]
pub struct FailingTree {
    inner: MemoryTree,
    plan: FailPlan,
    failed_reads: u64,
    failed_changes: u64,
}

impl FailingTree {
    ghost use Rattle.memory_tree.specs.Fakes.{tree_plan, tree_within, planned_reads, planned_changes, TakesTurn};
    ghost use Rattle.memory_tree.specs.Plan.{fails_at};

    /// This tree, with calls that fail by this plan, counted from here.
    pub fn new(inner: MemoryTree, fails: FailPlan) -> FailingTree
        ensures plan { tree_plan result ≡ fails }
        ensures within { tree_within result ≡ inner }
        ensures reads { planned_reads result ≡ 0 }
        ensures changes { planned_changes result ≡ 0 }
    {
        FailingTree {
            inner,
            plan: fails,
            failed_reads: 0,
            failed_changes: 0,
        }
    }

    /// The tree as the calls left it.
    pub fn into_inner(self) -> MemoryTree
        ensures { result ≡ tree_within self }
    {
        self.inner
    }

    // Whether a read fails by the plan, which is then counted.
    fn read_fails(&mut self) -> bool
        ensures next { result ≡ fails_at self.old.plan 1 }
        ensures left { TakesTurn self.old.plan self.new.plan }
        ensures counted { OnTrue result (Rose self.old.failed_reads self.new.failed_reads) }
        ensures uncounted { OnFalse result (self.new.failed_reads ≡ self.old.failed_reads) }
        ensures later { self.old.failed_reads ≤ self.new.failed_reads }
        ensures changes { self.new.failed_changes ≡ self.old.failed_changes }
        ensures inner { self.new.inner ≡ self.old.inner }
    {
        self.plan.fails_next(&mut self.failed_reads)
    }

    // Whether a changing call fails by the plan, which is then counted.
    fn change_fails(&mut self) -> bool
        ensures next { result ≡ fails_at self.old.plan 1 }
        ensures left { TakesTurn self.old.plan self.new.plan }
        ensures counted { OnTrue result (Rose self.old.failed_changes self.new.failed_changes) }
        ensures uncounted { OnFalse result (self.new.failed_changes ≡ self.old.failed_changes) }
        ensures later { self.old.failed_changes ≤ self.new.failed_changes }
        ensures reads { self.new.failed_reads ≡ self.old.failed_reads }
        ensures inner { self.new.inner ≡ self.old.inner }
    {
        self.plan.fails_next(&mut self.failed_changes)
    }
}

impl Tree for FailingTree {
    ghost use Rattle.std.specs.Prelude.{◌+◌, ◌∷◌, [], length, true, false, IfOk, OnOk};
    ghost use Rattle.cluster_tree.specs.declared.tree.ChangeCall.{ChangeCall};
    ghost use Rattle.std.specs.FinMap.{insert, remove};
    ghost use Rattle.std.specs.List.{list_all};
    ghost use Rattle.cluster_tree.specs.PathValue.{is_part};
    ghost use Rattle.memory_tree.specs.Memory.{contents_of, stops_of};
    ghost use Rattle.cluster_tree.specs.Contents.{entry_at, FileEntry, FolderEntry};
    ghost use Rattle.cluster_tree.specs.Causes.{Meets, MeetsInto, Passes};
    ghost use Rattle.cluster_tree.specs.Tree.{kind_of, file_of, size_of, range_of, write_refusal, cut_refusal, make_refusal, written, shortened, HasFailed, RefusesOnly, IsFreeOfListing, Counts, file_faults, list_faults, make_faults, range_faults, remove_faults};
    ghost use Rattle.cluster_tree.specs.Folders.{list_refusal, remove_refusal, IsListing};
    ghost use Rattle.cluster_tree.specs.Step.{MayBe};
    ghost use Rattle.cluster_tree.specs.Run.{Makes, Pends};
    ghost use Rattle.cluster_tree.specs.Frame.{Reads, Came};
    ghost use Rattle.memory_tree.specs.Fakes.{contents_left, state_left, moment_left, planned_reads, changes_failed, PlannedRead, PlannedChange};

    ghost tells = { true };

    ghost contents = { λ f. contents_of f.inner.nodes.items };

    ghost calls = { λ f. f.inner.log.calls.items };

    ghost stops = { λ f. stops_of f.inner.log };

    ghost failed_reads = { λ f. f.failed_reads };

    ghost failed_changes = { λ f. f.failed_changes + f.inner.failed };

    ghost is_tree = { λ told f. f.inner.sound.rooted };

    fn kind(&mut self, path: &Path) -> Result<Kind, TreeFault>
        ensures planned { PlannedRead self.old self.new result }
        ensures answer { Meets HasFailed (kind_of (entry_at (contents_left self.old) path.now)) result }
        ensures row { RefusesOnly (TreeFault.Link ∷ []) result }
        ensures cause { Counts planned_reads changes_failed self.old self.new result }
        ensures frame { Reads ⟦<FailingTree as Tree>⟧ self.old self.new }
    {
        if self.read_fails() {
            return Err(TreeFault::Failed);
        }
        self.inner.kind(path)
    }

    fn list(&mut self, alloc: Global, path: &Path) -> Result<Names, TreeFault>
        ensures planned { PlannedRead self.old self.new result }
        ensures names { IfOk result (IsListing (contents_left self.old) path.now) }
        ensures parts { IfOk result (λ names. list_all is_part names ≡ true) }
        ensures refused { Passes IsFreeOfListing (list_refusal (entry_at (contents_left self.old)
            path.now)) result }
        ensures row { RefusesOnly list_faults result }
        ensures cause { Counts planned_reads changes_failed self.old self.new result }
        ensures frame { Reads ⟦<FailingTree as Tree>⟧ self.old self.new }
    {
        if self.read_fails() {
            return Err(TreeFault::Failed);
        }
        self.inner.list(alloc, path)
    }

    fn size(&mut self, path: &Path) -> Result<u64, TreeFault>
        ensures planned { PlannedRead self.old self.new result }
        ensures answer { Meets HasFailed (size_of (file_of (entry_at (contents_left self.old)
            path.now))) result }
        ensures row { RefusesOnly file_faults result }
        ensures cause { Counts planned_reads changes_failed self.old self.new result }
        ensures frame { Reads ⟦<FailingTree as Tree>⟧ self.old self.new }
    {
        if self.read_fails() {
            return Err(TreeFault::Failed);
        }
        self.inner.size(path)
    }

    fn read_at(&mut self, path: &Path, at: u64, into: &mut [u8]) -> Result<(), TreeFault>
        ensures planned { PlannedRead self.old self.new result }
        ensures answer { MeetsInto HasFailed (range_of (file_of (entry_at (contents_left self.old)
            path.now)) at (length into.old)) into.new result }
        ensures row { RefusesOnly range_faults result }
        ensures cause { Counts planned_reads changes_failed self.old self.new result }
        ensures frame { Reads ⟦<FailingTree as Tree>⟧ self.old self.new }
    {
        if self.read_fails() {
            return Err(TreeFault::Failed);
        }
        self.inner.read_at(path, at, into)
    }

    fn write_at(&mut self, path: &Path, at: u64, bytes: &[u8]) -> Result<(), TreeFault>
        ensures planned { PlannedChange self.old self.new result }
        ensures written { OnOk result (contents_left self.new ≡ written (contents_left self.old)
            path.now at bytes.now) }
        ensures refused { Passes HasFailed (write_refusal (contents_left self.old) path.now at) result }
        ensures row { RefusesOnly range_faults result }
        ensures made { Makes (ChangeCall.Write path.now at (length bytes.now)) (state_left self.old)
            (state_left self.new) result }
        ensures pending { Pends (ChangeCall.Write path.now at (length bytes.now)) (moment_left self.old) (moment_left
            self.new) result }
        ensures cause { Counts changes_failed planned_reads self.old self.new result }
        ensures frame { Came ⟦<FailingTree as Tree>⟧ self.old self.new }
    {
        if self.change_fails() {
            return Err(TreeFault::Failed);
        }
        self.inner.write_at(path, at, bytes)
    }

    fn cut(&mut self, path: &Path, size: u64) -> Result<(), TreeFault>
        ensures planned { PlannedChange self.old self.new result }
        ensures cut { OnOk result (contents_left self.new ≡ shortened (contents_left self.old)
            path.now size) }
        ensures refused { Passes HasFailed (cut_refusal (contents_left self.old) path.now size) result }
        ensures whole { MayBe (cut_refusal (contents_left self.old) path.now size) (contents_left
            self.old) (shortened (contents_left self.old) path.now size) (contents_left self.new) }
        ensures row { RefusesOnly range_faults result }
        ensures made { Makes (ChangeCall.Cut path.now size) (state_left self.old) (state_left
            self.new) result }
        ensures pending { Pends (ChangeCall.Cut path.now size) (moment_left self.old) (moment_left
            self.new) result }
        ensures cause { Counts changes_failed planned_reads self.old self.new result }
        ensures frame { Came ⟦<FailingTree as Tree>⟧ self.old self.new }
    {
        if self.change_fails() {
            return Err(TreeFault::Failed);
        }
        self.inner.cut(path, size)
    }

    fn make_file(&mut self, path: &Path) -> Result<(), TreeFault>
        ensures planned { PlannedChange self.old self.new result }
        ensures file { OnOk result (contents_left self.new ≡ insert (contents_left self.old)
            path.now (FileEntry [])) }
        ensures refused { Passes HasFailed (make_refusal (contents_left self.old) path.now) result }
        ensures row { RefusesOnly make_faults result }
        ensures made { Makes (ChangeCall.MakeFile path.now) (state_left self.old) (state_left
            self.new) result }
        ensures pending { Pends (ChangeCall.MakeFile path.now) (moment_left self.old) (moment_left
            self.new) result }
        ensures cause { Counts changes_failed planned_reads self.old self.new result }
        ensures frame { Came ⟦<FailingTree as Tree>⟧ self.old self.new }
    {
        if self.change_fails() {
            return Err(TreeFault::Failed);
        }
        self.inner.make_file(path)
    }

    fn make_folder(&mut self, path: &Path) -> Result<(), TreeFault>
        ensures planned { PlannedChange self.old self.new result }
        ensures folder { OnOk result (contents_left self.new ≡ insert (contents_left self.old)
            path.now (FolderEntry false)) }
        ensures refused { Passes HasFailed (make_refusal (contents_left self.old) path.now) result }
        ensures row { RefusesOnly make_faults result }
        ensures made { Makes (ChangeCall.MakeFolder path.now) (state_left self.old) (state_left
            self.new) result }
        ensures pending { Pends (ChangeCall.MakeFolder path.now) (moment_left self.old) (moment_left
            self.new) result }
        ensures cause { Counts changes_failed planned_reads self.old self.new result }
        ensures frame { Came ⟦<FailingTree as Tree>⟧ self.old self.new }
    {
        if self.change_fails() {
            return Err(TreeFault::Failed);
        }
        self.inner.make_folder(path)
    }

    fn remove(&mut self, path: &Path) -> Result<(), TreeFault>
        ensures planned { PlannedChange self.old self.new result }
        ensures removed { OnOk result (contents_left self.new ≡ remove (contents_left self.old) path.now) }
        ensures refused { Passes HasFailed (remove_refusal (contents_left self.old) path.now) result }
        ensures row { RefusesOnly remove_faults result }
        ensures made { Makes (ChangeCall.Remove path.now) (state_left self.old) (state_left self.new) result }
        ensures pending { Pends (ChangeCall.Remove path.now) (moment_left self.old) (moment_left
            self.new) result }
        ensures cause { Counts changes_failed planned_reads self.old self.new result }
        ensures frame { Came ⟦<FailingTree as Tree>⟧ self.old self.new }
    {
        if self.change_fails() {
            return Err(TreeFault::Failed);
        }
        self.inner.remove(path)
    }

    fn sync(&mut self) -> Result<(), TreeFault>
        ensures planned { PlannedChange self.old self.new result }
        ensures same { contents_left self.new ≡ contents_left self.old }
        ensures row { RefusesOnly [] result }
        ensures made { Makes ChangeCall.Sync (state_left self.old) (state_left self.new) result }
        ensures pending { Pends ChangeCall.Sync (moment_left self.old) (moment_left
            self.new) result }
        ensures cause { Counts changes_failed planned_reads self.old self.new result }
        ensures frame { Came ⟦<FailingTree as Tree>⟧ self.old self.new }
    {
        if self.change_fails() {
            return Err(TreeFault::Failed);
        }
        self.inner.sync()
    }
}
