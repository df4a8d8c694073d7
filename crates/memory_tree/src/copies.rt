// Copies of the nodes of a tree in memory, and of changing calls.
ghost use Rattle.std.specs.Prelude.{◌≡◌, IfOk};
ghost use Rattle.memory_tree.specs.Memory.{contents_of, entry_of};

use crate::nodes::{Node, Placed};
use cluster_tree::{ChangeCall, OutOfMemory};
use std::alloc::Global;

/// An equal call.
pub(crate) fn copy_call(alloc: Global, call: &ChangeCall) -> Result<ChangeCall, OutOfMemory>
    ensures { IfOk result (λ copy. copy ≡ call.now) }
{
    Ok(match call {
        ChangeCall::Write(path, at, size) => ChangeCall::Write(path.copy(alloc)?, *at, *size),
        ChangeCall::Cut(path, size) => ChangeCall::Cut(path.copy(alloc)?, *size),
        ChangeCall::MakeFile(path) => ChangeCall::MakeFile(path.copy(alloc)?),
        ChangeCall::MakeFolder(path) => ChangeCall::MakeFolder(path.copy(alloc)?),
        ChangeCall::Remove(path) => ChangeCall::Remove(path.copy(alloc)?),
        ChangeCall::Sync => ChangeCall::Sync,
    })
}

// A node that stands for the same entry.
fn copy_node(alloc: Global, node: &Node) -> Result<Node, OutOfMemory>
    ensures { IfOk result (λ copy. entry_of copy ≡ entry_of node.now) }
{
    match node {
        Node::Folder(bad) => Ok(Node::Folder(*bad)),
        Node::File(bytes) => {
            let mut copy = Vec::new(alloc);
            copy.extend_from_slice(bytes)?;
            Ok(Node::File(copy))
        }
        Node::Link => Ok(Node::Link),
    }
}

/// Nodes that stand for the same contents.
pub(crate) fn copy_nodes(alloc: Global, nodes: &[Placed]) -> Result<Vec<Placed>, OutOfMemory>
    ensures { IfOk result (λ copy. contents_of copy.items ≡ contents_of nodes.now) }
{
    let mut copy = Vec::new(alloc);
    for placed in nodes {
        let path = placed.path.copy(alloc)?;
        let node = copy_node(alloc, &placed.node)?;
        copy.push(Placed { path, node })?;
    }
    Ok(copy)
}
