//! Walks over a tree that tells nothing and has no end: each folder of it has one name.
use crate::texts::says;
use crate::walks::tell_walk;
use cluster_tree::{Kind, Names, Path, Tree, TreeFault};
use std::alloc::Global;
use std::process::Abort;
use tree_lines::cut_at;

/// A tree that says the same of each path, and changes nothing.
#[derive(Drop)]
struct Endless {
    kind: Kind,
}

impl Tree for Endless {
    ghost use Rattle.std.specs.Prelude.{false, []};
    ghost use Rattle.std.specs.FinMap.{empty};
    ghost use Rattle.cluster_tree.specs.Untold.{untold};

    ghost tells = { false };

    ghost contents = { λ t. empty };

    ghost calls = { λ t. [] };

    ghost failed_reads = { λ t. 0 };

    ghost failed_changes = { λ t. 0 };

    ghost is_tree = { λ told t. untold told };

    fn kind(&mut self, _path: &Path) -> Result<Kind, TreeFault> {
        Ok(self.kind)
    }

    fn list(&mut self, alloc: Global, _path: &Path) -> Result<Names, TreeFault> {
        let mut names = Names::new(alloc);
        names.push("d")?;
        Ok(names)
    }

    fn size(&mut self, _path: &Path) -> Result<u64, TreeFault> {
        Ok(0)
    }

    fn read_at(&mut self, _path: &Path, _at: u64, _into: &mut [u8]) -> Result<(), TreeFault> {
        Ok(())
    }

    fn write_at(&mut self, _path: &Path, _at: u64, _bytes: &[u8]) -> Result<(), TreeFault> {
        Ok(())
    }

    fn cut(&mut self, _path: &Path, _size: u64) -> Result<(), TreeFault> {
        Ok(())
    }

    fn make_file(&mut self, _path: &Path) -> Result<(), TreeFault> {
        Ok(())
    }

    fn make_folder(&mut self, _path: &Path) -> Result<(), TreeFault> {
        Ok(())
    }

    fn remove(&mut self, _path: &Path) -> Result<(), TreeFault> {
        Ok(())
    }

    fn sync(&mut self) -> Result<(), TreeFault> {
        Ok(())
    }
}

/// Roots, and of how many bytes the path is that is too deep: that of 65 parts with the root's, but 64 at most. A tree that
/// contradicts itself was changed.
pub(crate) const ENDLESS: &str = "\
endless folder . = TooDeep of 127
endless folder t = TooDeep of 127
endless folder t/u = TooDeep of 125
endless folder /t/u/v = TooDeep of 123
endless none t = File t/d was changed meanwhile";

/// `folder ROOT` or `none ROOT`: why a walk ends where each path is so.
pub(crate) fn tell_endless<R: AllocGlobal + Abort>(rt: &R, out: &mut String, words: &str) {
    let (kind, root) = cut_at(words, " ");
    let kind = match kind {
        "folder" => Kind::Folder,
        _ => Kind::Absent,
    };
    tell_walk(rt, out, &mut Endless { kind }, root);
    let size = match out.as_str().strip_prefix("TooDeep ") {
        Some(path) if path.starts_with("d") => path.len(),
        _ => return,
    };
    out.clear();
    says(rt, out, "TooDeep of ", &size);
}
