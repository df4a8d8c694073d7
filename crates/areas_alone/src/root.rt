// The listing of the root.
ghost use Rattle.std.specs.Prelude.{◌≡◌, ◌++◌, ◌≤◌, [], ◌∷◌, cond, is_some, length, true, IfErr, IfOk, IsTrue, OnOk};
ghost use Rattle.std.specs.FinMap.{get};
ghost use Rattle.std.specs.List.{list_all};
ghost use Rattle.cluster_tree.specs.Causes.{Passes};
ghost use Rattle.cluster_tree.specs.Contents.{entry_at};
ghost use Rattle.cluster_tree.specs.Folders.{IsListing, list_refusal};
ghost use Rattle.cluster_tree.specs.Frame.{Reads};
ghost use Rattle.cluster_tree.specs.PathValue.{below, is_part};
ghost use Rattle.cluster_tree.specs.Tree.{Counts, IsFreeOfListing, RefusesOnly, list_faults};
ghost use Rattle.areas_alone.specs.Alone.{areas_in, areas_of};

use cluster_tree::{Kind, Names, Path, Tree, TreeFault};
use std::alloc::Global;

// Whether something stands in the root at a name. A link does too.
fn stands<F: Tree>(alloc: Global, tree: &mut F, root: &Path, name: &str) -> Result<bool, TreeFault>
    requires room { length root.now.parts ≤ 63 }
    requires proper { is_part name.now ≡ true }
    ensures value { IsTrue F.tells → IfOk result (λ there. there
        ≡ is_some (get (F.contents tree.old) (below root.now (name.now ∷ [])))) }
    ensures refused { IfErr result IsFreeOfListing }
    ensures cause { Counts F.failed_reads F.failed_changes tree.old tree.new result }
    ensures reads { Reads F.Tree tree.old tree.new }
{
    let path = root.below(alloc, name)?;
    match tree.kind(&path) {
        Ok(Kind::Absent) => Ok(false),
        Ok(Kind::File) => Ok(true),
        Ok(Kind::Folder) => Ok(true),
        Err(TreeFault::Link) => Ok(true),
        Err(_) => Err(TreeFault::Failed),
    }
}

// Adds a name of the root, where something stands there.
fn add<F: Tree>(
    alloc: Global,
    tree: &mut F,
    root: &Path,
    names: &mut Names,
    name: &str,
) -> Result<(), TreeFault>
    requires room { length root.now.parts ≤ 63 }
    requires proper { is_part name.now ≡ true }
    ensures value { IsTrue F.tells → OnOk result (names.new ≡ names.old ++ cond
        (is_some (get (F.contents tree.old) (below root.now (name.now ∷ [])))) (name.now ∷ []) []) }
    ensures parts { OnOk result (list_all is_part names.old ≡ true →
        list_all is_part names.new ≡ true) }
    ensures refused { IfErr result IsFreeOfListing }
    ensures cause { Counts F.failed_reads F.failed_changes tree.old tree.new result }
    ensures reads { Reads F.Tree tree.old tree.new }
{
    if stands(alloc, tree, root, name)? {
        names.push(name)?;
    }
    Ok(())
}

// The names of the folders that replay changes, where something stands there.
fn areas_in<F: Tree>(alloc: Global, tree: &mut F, root: &Path) -> Result<Names, TreeFault>
    requires room { length root.now.parts ≤ 63 }
    ensures value { IsTrue F.tells →
        IfOk result (λ names. names ≡ areas_in (F.contents tree.old) root.now) }
    ensures parts { IfOk result (λ names. list_all is_part names ≡ true) }
    ensures refused { IfErr result IsFreeOfListing }
    ensures cause { Counts F.failed_reads F.failed_changes tree.old tree.new result }
    ensures reads { Reads F.Tree tree.old tree.new }
{
    let mut names = Names::new(alloc);
    add(alloc, tree, root, &mut names, "base")?;
    add(alloc, tree, root, &mut names, "global")?;
    add(alloc, tree, root, &mut names, "pg_multixact")?;
    add(alloc, tree, root, &mut names, "pg_xact")?;
    Ok(names)
}

/// What is listed of the root.
pub(crate) fn list_root<F: Tree>(
    alloc: Global,
    tree: &mut F,
    root: &Path,
) -> Result<Names, TreeFault>
    requires room { length root.now.parts ≤ 63 }
    ensures names { IsTrue F.tells →
        IfOk result (IsListing (areas_of (F.contents tree.old) root.now) root.now) }
    ensures parts { IfOk result (λ names. list_all is_part names ≡ true) }
    ensures refused { IsTrue F.tells → Passes IsFreeOfListing
        (list_refusal (entry_at (areas_of (F.contents tree.old) root.now) root.now)) result }
    ensures row { RefusesOnly list_faults result }
    ensures cause { Counts F.failed_reads F.failed_changes tree.old tree.new result }
    ensures reads { Reads F.Tree tree.old tree.new }
{
    match tree.kind(root) {
        Ok(Kind::Folder) => areas_in(alloc, tree, root),
        Ok(Kind::Absent) => Err(TreeFault::Absent),
        Ok(Kind::File) => Err(TreeFault::NotFolder),
        Err(fault) => Err(fault),
    }
}
