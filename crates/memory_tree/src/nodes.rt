// The nodes of a tree in memory.
ghost use Rattle.std.specs.Prelude.{◌≡◌, ◌<◌, length, true, map, string_bytes, is_some, slice_index_or, IfOk, IfErr, OnOk, IfSome, IfNone, Some, None, Ok, Err};
ghost use Rattle.std.specs.FinMap.{get};
ghost use Rattle.cluster_tree.specs.Contents.{entry_at, parent};
ghost use Rattle.cluster_tree.specs.PathValue.{path_of};
ghost use Rattle.cluster_tree.specs.Tree.{file_of, make_refusal, refusal_in, RefusesOnly, file_faults, folder_faults, list_faults, make_faults, remove_faults};
ghost use Rattle.cluster_tree.specs.Folders.{list_refusal, remove_refusal};
ghost use Rattle.memory_tree.specs.Memory.{contents_of, entry_of, IsPlace};

use crate::children::has_child;
use cluster_tree::{Path, TreeFault};

/// An entry of a tree in memory.
#[derive(Drop)]
pub(crate) enum Node {
    /// A folder, and whether it holds a name that isn't UTF-8.
    Folder(bool),
    /// A file's bytes.
    File(Vec<u8>),
    /// A link or special file.
    Link,
}

/// A node and its path.
#[derive(Drop)]
pub(crate) struct Placed {
    pub(crate) path: Path,
    pub(crate) node: Node,
}

// The place of the path of this mark and these parts.
fn find_place(nodes: &[Placed], absolute: bool, parts: &[String]) -> Option<usize>
    ensures absent { IfNone result
        (get (contents_of nodes.now) (path_of absolute (map string_bytes parts.now)) ≡ None) }
    ensures there { IfSome result (λ i. is_some
        (get (contents_of nodes.now) (path_of absolute (map string_bytes parts.now))) ≡ true) }
    ensures place { IfSome result
        (λ i. IsPlace nodes.now (path_of absolute (map string_bytes parts.now)) i) }
    ensures entry { IfSome result (λ i. (d : _) → get (contents_of nodes.now)
        (path_of absolute (map string_bytes parts.now)) ≡ Some
        (entry_of (slice_index_or nodes.now i d).node)) }
{
    for i in 0..nodes.len() {
        if nodes[i].path.is(absolute, parts) {
            return Some(i);
        }
    }
    None
}

/// The place of a path.
pub(crate) fn place_of(nodes: &[Placed], path: &Path) -> Option<usize>
    ensures absent { IfNone result (get (contents_of nodes.now) path.now ≡ None) }
    ensures there { IfSome result (λ i. is_some (get (contents_of nodes.now) path.now) ≡ true) }
    ensures place { IfSome result (λ i. IsPlace nodes.now path.now i) }
    ensures entry { IfSome result (λ i. (d : _) → get (contents_of nodes.now) path.now ≡ Some
        (entry_of (slice_index_or nodes.now i d).node)) }
{
    find_place(nodes, path.is_absolute(), path.parts())
}

// The place of the folder that a path lies in.
fn parent_place(nodes: &[Placed], path: &Path) -> Option<usize>
    ensures absent { IfNone result (get (contents_of nodes.now) (parent path.now) ≡ None) }
    ensures entry { IfSome result (λ i. (d : _) → get (contents_of nodes.now) (parent path.now)
        ≡ Some (entry_of (slice_index_or nodes.now i d).node)) }
    ensures within { IfSome result (λ i. i < length nodes.now) }
{
    let parts = path.parts();
    let above = match parts.split_last() {
        Some((_, above)) => above,
        None => parts,
    };
    find_place(nodes, path.is_absolute(), above)
}

/// The bytes of a file, or why there is none.
pub(crate) fn file_in<'a>(nodes: &'a [Placed], path: &Path) -> Result<&'a Vec<u8>, TreeFault>
    ensures told { IfOk result
        (λ bytes. file_of (entry_at (contents_of nodes.now) path.now) ≡ Ok bytes.now.items) }
    ensures refused { IfErr result
        (λ fault. file_of (entry_at (contents_of nodes.now) path.now) ≡ Err fault) }
    ensures row { RefusesOnly file_faults result }
{
    let Some(i) = place_of(nodes, path) else {
        if path.len() == 0 {
            return Err(TreeFault::IsFolder);
        }
        return Err(TreeFault::Absent);
    };
    match &nodes[i].node {
        Node::Folder(_) => Err(TreeFault::IsFolder),
        Node::File(bytes) => Ok(bytes),
        Node::Link => Err(TreeFault::Link),
    }
}

/// Refuses an entry that can't be made.
pub(crate) fn check_room(nodes: &[Placed], path: &Path) -> Result<(), TreeFault>
    ensures room { OnOk result (make_refusal (contents_of nodes.now) path.now ≡ None) }
    ensures refused { IfErr result
        (λ fault. make_refusal (contents_of nodes.now) path.now ≡ Some fault) }
    ensures absent { OnOk result (get (contents_of nodes.now) path.now ≡ None) }
    ensures row { RefusesOnly make_faults result }
{
    if let Some(_) = place_of(nodes, path) {
        return Err(TreeFault::Exists);
    }
    if path.len() == 0 {
        return Err(TreeFault::Exists);
    }
    let Some(i) = parent_place(nodes, path) else {
        if path.len() == 1 {
            return Ok(());
        }
        return Err(TreeFault::Absent);
    };
    match &nodes[i].node {
        Node::Folder(_) => Ok(()),
        Node::File(_) => Err(TreeFault::NotFolder),
        Node::Link => Err(TreeFault::Link),
    }
}

/// Refuses what is no folder.
pub(crate) fn check_folder(nodes: &[Placed], path: &Path) -> Result<(), TreeFault>
    ensures folder { OnOk result (refusal_in (entry_at (contents_of nodes.now) path.now) ≡ None) }
    ensures refused { IfErr result
        (λ fault. refusal_in (entry_at (contents_of nodes.now) path.now) ≡ Some fault) }
    ensures row { RefusesOnly folder_faults result }
{
    let Some(i) = place_of(nodes, path) else {
        if path.len() == 0 {
            return Ok(());
        }
        return Err(TreeFault::Absent);
    };
    match &nodes[i].node {
        Node::Folder(_) => Ok(()),
        Node::File(_) => Err(TreeFault::NotFolder),
        Node::Link => Err(TreeFault::Link),
    }
}

/// Refuses what can't be listed.
pub(crate) fn check_listed(nodes: &[Placed], path: &Path) -> Result<(), TreeFault>
    ensures listed { OnOk result (list_refusal (entry_at (contents_of nodes.now) path.now) ≡ None) }
    ensures refused { IfErr result
        (λ fault. list_refusal (entry_at (contents_of nodes.now) path.now) ≡ Some fault) }
    ensures row { RefusesOnly list_faults result }
{
    let Some(i) = place_of(nodes, path) else {
        if path.len() == 0 {
            return Ok(());
        }
        return Err(TreeFault::Absent);
    };
    match &nodes[i].node {
        Node::Folder(false) => Ok(()),
        Node::Folder(true) => Err(TreeFault::NameNotText),
        Node::File(_) => Err(TreeFault::NotFolder),
        Node::Link => Err(TreeFault::Link),
    }
}

/// Refuses what can't be removed.
pub(crate) fn check_free(nodes: &[Placed], path: &Path) -> Result<(), TreeFault>
    ensures free { OnOk result (remove_refusal (contents_of nodes.now) path.now ≡ None) }
    ensures refused { IfErr result
        (λ fault. remove_refusal (contents_of nodes.now) path.now ≡ Some fault) }
    ensures row { RefusesOnly remove_faults result }
{
    let in_use = path.len() == 0 || has_child(nodes, path);
    let Some(i) = place_of(nodes, path) else {
        if path.len() == 0 {
            return Err(TreeFault::NotEmpty);
        }
        return Err(TreeFault::Absent);
    };
    match &nodes[i].node {
        Node::Folder(bad) if *bad || in_use => Err(TreeFault::NotEmpty),
        Node::Folder(_) | Node::File(_) => Ok(()),
        Node::Link => Err(TreeFault::Link),
    }
}
