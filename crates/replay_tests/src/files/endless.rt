// Folders of more parts than a path may have.
ghost use Rattle.std.specs.Prelude.{◌≡◌, true, IfOk, IfErr};
ghost use Rattle.std.specs.List.{list_all};
ghost use Rattle.cluster_tree.specs.PathValue.{is_part};

use cluster_tree::{Kind, Names, Path, Tree, TreeFault};
use std::alloc::Global;

/// A tree in which each folder holds one more, `d`, without end. It tells nothing, and nothing in it can be changed.
#[derive(Drop)]
pub(crate) struct EndlessTree;

fn one_name(alloc: Global) -> Result<Names, TreeFault>
    ensures parts { IfOk result (λ names. list_all is_part names ≡ true) }
    ensures memory { IfErr result (λ e. e ≡ TreeFault.OutOfMemory) }
{
    let mut names = Names::new(alloc);
    names.push("d")?;
    Ok(names)
}

impl Tree for EndlessTree {
    ghost use Rattle.std.specs.Prelude.{false, []};
    ghost use Rattle.std.specs.FinMap.{empty};
    ghost use Rattle.cluster_tree.specs.Untold.{untold};

    ghost tells = { false };

    ghost contents = { λ t. empty };

    ghost calls = { λ t. [] };

    ghost failed_reads = { λ t. 0 };

    ghost failed_changes = { λ t. 0 };

    ghost is_tree = { λ told t. untold told };

    fn kind(&mut self, _path: &Path) -> Result<Kind, TreeFault> {
        Ok(Kind::Folder)
    }

    fn list(&mut self, alloc: Global, _path: &Path) -> Result<Names, TreeFault> {
        one_name(alloc)
    }

    fn size(&mut self, _path: &Path) -> Result<u64, TreeFault> {
        Err(TreeFault::IsFolder)
    }

    fn read_at(&mut self, _path: &Path, _at: u64, _into: &mut [u8]) -> Result<(), TreeFault> {
        Err(TreeFault::IsFolder)
    }

    fn write_at(&mut self, _path: &Path, _at: u64, _bytes: &[u8]) -> Result<(), TreeFault> {
        Err(TreeFault::IsFolder)
    }

    fn cut(&mut self, _path: &Path, _size: u64) -> Result<(), TreeFault> {
        Err(TreeFault::IsFolder)
    }

    fn make_file(&mut self, _path: &Path) -> Result<(), TreeFault> {
        Err(TreeFault::Exists)
    }

    fn make_folder(&mut self, _path: &Path) -> Result<(), TreeFault> {
        Err(TreeFault::Exists)
    }

    fn remove(&mut self, _path: &Path) -> Result<(), TreeFault> {
        Err(TreeFault::NotEmpty)
    }

    fn sync(&mut self) -> Result<(), TreeFault> {
        Ok(())
    }
}
