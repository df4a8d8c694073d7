// What lies in the folders of a tree in memory.
ghost use Rattle.std.specs.Prelude.{◌≡◌, ℕ, List, [], ◌∷◌, true, false, map, bytes_eq, string_bytes, is_some, IfOk, IfSome, IfNone};
ghost use Rattle.std.specs.FinMap.{get};
ghost use Rattle.std.specs.List.{list_all, list_any};
ghost use Rattle.std.specs.List.Sorted.{IsStrictlySortedBy};
ghost use Rattle.std.specs.String.{string_cmp};
ghost use Rattle.cluster_tree.specs.PathValue.{below, is_part};
ghost use Rattle.cluster_tree.specs.Folders.{lies_in, has_child, IsListing};
ghost use Rattle.memory_tree.specs.Memory.{contents_of};

use crate::nodes::Placed;
use cluster_tree::{Names, OutOfMemory, Path};
use std::alloc::Global;
use std::collections::BTreeSet;

// The name of an entry, where it lies right in a folder.
fn name_in<'a>(path: &'a Path, folder: &Path) -> Option<&'a String>
    ensures test { is_some result ≡ lies_in folder.now path.now }
    ensures inside { IfSome result
        (λ name. path.now ≡ below folder.now (string_bytes name.now ∷ [])) }
    ensures proper { IfSome result (λ name. is_part (string_bytes name.now) ≡ true) }
{
    let (name, above) = path.parts().split_last()?;
    if folder.is(path.is_absolute(), above) {
        Some(name)
    } else {
        None
    }
}

/// Whether something lies in a folder.
pub(crate) fn has_child(nodes: &[Placed], folder: &Path) -> bool
    ensures { result ≡ has_child (contents_of nodes.now) folder.now }
{
    for placed in nodes {
        if name_in(&placed.path, folder).is_some() {
            return true;
        }
    }
    false
}

// The names of what lies in a folder, as a set.
fn name_set(alloc: Global, nodes: &[Placed], folder: &Path) -> Result<BTreeSet<String>, OutOfMemory>
    ensures ordered { IfOk result (λ names. IsStrictlySortedBy string_cmp names.keys) }
    ensures members { IfOk result (λ names. (name : List ℕ) → list_any (bytes_eq name)
        (map string_bytes names.keys) ≡ is_some
        (get (contents_of nodes.now) (below folder.now (name ∷ [])))) }
    ensures proper { IfOk result
        (λ names. list_all is_part (map string_bytes names.keys) ≡ true) }
{
    let mut names = BTreeSet::new(alloc);
    for placed in nodes {
        if let Some(name) = name_in(&placed.path, folder) {
            names.insert(name.clone()?)?;
        }
    }
    Ok(names)
}

/// The names of what lies in a folder, in ascending order.
pub(crate) fn names_in(alloc: Global, nodes: &[Placed], folder: &Path) -> Result<Names, OutOfMemory>
    ensures listing { IfOk result (IsListing (contents_of nodes.now) folder.now) }
    ensures proper { IfOk result (λ names. list_all is_part names ≡ true) }
{
    let names = name_set(alloc, nodes, folder)?;
    Ok(Names::of_texts(alloc, in_order(alloc, names)?))
}

// The texts of a set, in ascending order.
fn in_order(alloc: Global, texts: BTreeSet<String>) -> Result<Vec<String>, OutOfMemory>
    ensures { IfOk result (λ list. list.items ≡ texts.keys) }
{
    Ok(texts.into_iter().collect(alloc)?)
}
