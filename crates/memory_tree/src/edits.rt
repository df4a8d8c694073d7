// The changes of the nodes of a tree in memory.
ghost use Rattle.std.specs.Prelude.{◌≡◌, ◌+◌, ◌≤◌, ◌++◌, [], ◌∷◌, length, true, false, is_some, IfOk, OnOk, OnErr, None};
ghost use Rattle.std.specs.FinMap.{get, insert, remove};
ghost use Rattle.cluster_tree.specs.Contents.{entry_at, FileEntry, FolderEntry};
ghost use Rattle.layout.specs.Splice.{splice};
ghost use Rattle.cluster_tree.specs.Tree.{written, write_refusal, shortened, cut_refusal, make_refusal};
ghost use Rattle.cluster_tree.specs.Folders.{remove_refusal};
ghost use Rattle.memory_tree.specs.Memory.{contents_of, entry_of, stops_of};
ghost use Rattle.cluster_tree.specs.Stops.{with_pending, with_synced};
ghost use Rattle.cluster_tree.specs.Step.{Step};

use crate::copies::{copy_call, copy_nodes};
use crate::log::Log;
use crate::nodes::{Node, Placed, place_of};
use cluster_tree::{ChangeCall, OutOfMemory, Path};
use std::alloc::Global;

// Lays bytes over others from an offset on.
#[tactic(auto, unfolding(layout::specs::Splice::splice))]
fn put(into: &mut [u8], at: usize, bytes: &[u8])
    requires { at + length bytes.now ≤ length into.old }
    ensures laid { into.new ≡ splice into.old at bytes.now }
    ensures len { length into.new ≡ length into.old }
{
    let end = at + bytes.len();
    into[at..end].copy_from_slice(bytes);
}

// Lays bytes over those of a file from an offset on, and past its end.
fn lay(file: &mut Vec<u8>, at: usize, bytes: &[u8]) -> Result<(), OutOfMemory>
    requires { at ≤ length file.old.items }
    ensures laid { OnOk result (file.new.items ≡ splice file.old.items at bytes.now) }
    ensures kept { OnErr result (file.new.items ≡ file.old.items) }
{
    let within = bytes.len().min(file.len() - at);
    file.extend_from_slice(&bytes[within..])?;
    put(file, at, &bytes[..within]);
    Ok(())
}

/// Writes a file that is there, and adds the call to the list.
pub(crate) fn write_in(
    alloc: Global,
    nodes: &mut Vec<Placed>,
    log: &mut Log,
    path: &Path,
    at: usize,
    bytes: &[u8],
) -> Result<(), OutOfMemory>
    requires { write_refusal (contents_of nodes.old.items) path.now at ≡ None }
    ensures written { OnOk result (contents_of nodes.new.items ≡ written
        (contents_of nodes.old.items) path.now at bytes.now) }
    ensures kept { OnErr result
        (contents_of nodes.new.items ≡ contents_of nodes.old.items) }
    ensures step { Step (ChangeCall.Write path.now at (length bytes.now))
        (contents_of nodes.old.items) (contents_of nodes.new.items) }
    ensures listed { OnOk result (log.new.calls.items ≡ log.old.calls.items ++ ChangeCall.Write
        path.now at (length bytes.now) ∷ []) }
    ensures unlisted { OnErr result (log.new.calls.items ≡ log.old.calls.items) }
    ensures pending { OnOk result (stops_of log.new ≡ with_pending (ChangeCall.Write
        path.now at (length bytes.now))
        (stops_of log.old)) }
    ensures unpending { OnErr result (stops_of log.new ≡ stops_of log.old) }
{
    let Some(i) = place_of(nodes, path) else {
        unreachable!();
    };
    let call = ChangeCall::Write(path.copy(alloc)?, at as u64, bytes.len() as u64);
    let copy = copy_call(alloc, &call)?;
    log.make_room()?;
    let Node::File(file) = &mut nodes[i].node else {
        unreachable!();
    };
    lay(file, at, bytes)?;
    log.put(call, copy);
    Ok(())
}

// Puts an entry where none is, and adds the call to the list.
fn put_in(
    alloc: Global,
    nodes: &mut Vec<Placed>,
    log: &mut Log,
    path: &Path,
    node: Node,
    call: ChangeCall,
) -> Result<(), OutOfMemory>
    requires { get (contents_of nodes.old.items) path.now ≡ None }
    ensures made { OnOk result (contents_of nodes.new.items ≡ insert (contents_of nodes.old.items)
        path.now (entry_of node)) }
    ensures kept { OnErr result (nodes.new.items ≡ nodes.old.items) }
    ensures listed { OnOk result (log.new.calls.items ≡ log.old.calls.items ++ call ∷ []) }
    ensures unlisted { OnErr result (log.new.calls.items ≡ log.old.calls.items) }
    ensures pending { OnOk result (stops_of log.new ≡ with_pending call
        (stops_of log.old)) }
    ensures unpending { OnErr result (stops_of log.new ≡ stops_of log.old) }
{
    let path = path.copy(alloc)?;
    nodes.reserve(1)?;
    log.add(alloc, call)?;
    nodes.push(Placed { path, node })?;
    Ok(())
}

/// Makes an empty file, and adds the call to the list.
pub(crate) fn put_file(
    alloc: Global,
    nodes: &mut Vec<Placed>,
    log: &mut Log,
    path: &Path,
) -> Result<(), OutOfMemory>
    requires room { make_refusal (contents_of nodes.old.items) path.now ≡ None }
    requires absent { get (contents_of nodes.old.items) path.now ≡ None }
    ensures made { OnOk result (contents_of nodes.new.items ≡ insert (contents_of nodes.old.items)
        path.now (FileEntry [])) }
    ensures kept { OnErr result (nodes.new.items ≡ nodes.old.items) }
    ensures step { Step (ChangeCall.MakeFile path.now) (contents_of nodes.old.items)
        (contents_of nodes.new.items) }
    ensures listed { OnOk result
        (log.new.calls.items ≡ log.old.calls.items ++ ChangeCall.MakeFile path.now ∷ []) }
    ensures unlisted { OnErr result (log.new.calls.items ≡ log.old.calls.items) }
    ensures pending { OnOk result (stops_of log.new ≡ with_pending (ChangeCall.MakeFile path.now)
        (stops_of log.old)) }
    ensures unpending { OnErr result (stops_of log.new ≡ stops_of log.old) }
{
    let call = ChangeCall::MakeFile(path.copy(alloc)?);
    put_in(alloc, nodes, log, path, Node::File(Vec::new(alloc)), call)
}

/// Makes an empty folder, and adds the call to the list.
pub(crate) fn put_folder(
    alloc: Global,
    nodes: &mut Vec<Placed>,
    log: &mut Log,
    path: &Path,
) -> Result<(), OutOfMemory>
    requires room { make_refusal (contents_of nodes.old.items) path.now ≡ None }
    requires absent { get (contents_of nodes.old.items) path.now ≡ None }
    ensures made { OnOk result (contents_of nodes.new.items ≡ insert (contents_of nodes.old.items)
        path.now (FolderEntry false)) }
    ensures kept { OnErr result (nodes.new.items ≡ nodes.old.items) }
    ensures step { Step (ChangeCall.MakeFolder path.now) (contents_of nodes.old.items)
        (contents_of nodes.new.items) }
    ensures listed { OnOk result
        (log.new.calls.items ≡ log.old.calls.items ++ ChangeCall.MakeFolder path.now ∷ []) }
    ensures unlisted { OnErr result (log.new.calls.items ≡ log.old.calls.items) }
    ensures pending { OnOk result (stops_of log.new ≡ with_pending (ChangeCall.MakeFolder path.now)
        (stops_of log.old)) }
    ensures unpending { OnErr result (stops_of log.new ≡ stops_of log.old) }
{
    let call = ChangeCall::MakeFolder(path.copy(alloc)?);
    put_in(alloc, nodes, log, path, Node::Folder(false), call)
}

/// Cuts a file that is there, and adds the call to the list.
pub(crate) fn cut_in(
    alloc: Global,
    nodes: &mut Vec<Placed>,
    log: &mut Log,
    path: &Path,
    size: usize,
) -> Result<(), OutOfMemory>
    requires { cut_refusal (contents_of nodes.old.items) path.now size ≡ None }
    ensures cut { OnOk result
        (contents_of nodes.new.items ≡ shortened (contents_of nodes.old.items) path.now size) }
    ensures kept { OnErr result (nodes.new.items ≡ nodes.old.items) }
    ensures step { Step (ChangeCall.Cut path.now size) (contents_of nodes.old.items)
        (contents_of nodes.new.items) }
    ensures listed { OnOk result
        (log.new.calls.items ≡ log.old.calls.items ++ ChangeCall.Cut path.now size ∷ []) }
    ensures unlisted { OnErr result (log.new.calls.items ≡ log.old.calls.items) }
    ensures pending { OnOk result (stops_of log.new ≡ with_pending (ChangeCall.Cut path.now size)
        (stops_of log.old)) }
    ensures unpending { OnErr result (stops_of log.new ≡ stops_of log.old) }
{
    let Some(i) = place_of(nodes, path) else {
        unreachable!();
    };
    log.add(alloc, ChangeCall::Cut(path.copy(alloc)?, size as u64))?;
    let Node::File(file) = &mut nodes[i].node else {
        unreachable!();
    };
    file.truncate(size);
    Ok(())
}

/// Removes an entry, and adds the call to the list.
pub(crate) fn remove_in(
    alloc: Global,
    nodes: &mut Vec<Placed>,
    log: &mut Log,
    path: &Path,
) -> Result<(), OutOfMemory>
    requires { remove_refusal (contents_of nodes.old.items) path.now ≡ None }
    ensures removed { OnOk result
        (contents_of nodes.new.items ≡ remove (contents_of nodes.old.items) path.now) }
    ensures kept { OnErr result (nodes.new.items ≡ nodes.old.items) }
    ensures step { Step (ChangeCall.Remove path.now) (contents_of nodes.old.items)
        (contents_of nodes.new.items) }
    ensures listed { OnOk result
        (log.new.calls.items ≡ log.old.calls.items ++ ChangeCall.Remove path.now ∷ []) }
    ensures unlisted { OnErr result (log.new.calls.items ≡ log.old.calls.items) }
    ensures pending { OnOk result (stops_of log.new ≡ with_pending (ChangeCall.Remove path.now)
        (stops_of log.old)) }
    ensures unpending { OnErr result (stops_of log.new ≡ stops_of log.old) }
{
    log.add(alloc, ChangeCall::Remove(path.copy(alloc)?))?;
    let (absolute, parts) = (path.is_absolute(), path.parts());
    nodes.retain(|placed| !placed.path.is(absolute, parts));
    Ok(())
}

// Puts an entry in the place of what stands at a path.
fn set_node(
    alloc: Global,
    nodes: &mut Vec<Placed>,
    path: &Path,
    node: Node,
) -> Result<(), OutOfMemory>
    ensures set { OnOk result (contents_of nodes.new.items ≡ insert (contents_of nodes.old.items)
        path.now (entry_of node)) }
    ensures kept { OnErr result (nodes.new.items ≡ nodes.old.items) }
{
    match place_of(nodes, path) {
        Some(i) => nodes[i].node = node,
        None => nodes.push(Placed {
            path: path.copy(alloc)?,
            node,
        })?,
    }
    Ok(())
}

/// Puts an entry in the place of what stands at a path, and syncs, without a call.
pub(crate) fn set_synced(
    alloc: Global,
    nodes: &mut Vec<Placed>,
    log: &mut Log,
    path: &Path,
    node: Node,
) -> Result<(), OutOfMemory>
    ensures set { OnOk result (contents_of nodes.new.items ≡ insert (contents_of nodes.old.items)
        path.now (entry_of node)) }
    ensures kept { OnErr result (nodes.new.items ≡ nodes.old.items) }
    ensures uncalled { log.new.calls ≡ log.old.calls }
    ensures synced { OnOk result (stops_of log.new ≡ with_synced (contents_of nodes.new.items)
        (stops_of log.old)) }
    ensures unsynced { OnErr result (stops_of log.new ≡ stops_of log.old) }
{
    let mut set = copy_nodes(alloc, nodes)?;
    set_node(alloc, &mut set, path, node)?;
    let synced = copy_nodes(alloc, &set)?;
    log.begin(alloc, synced)?;
    *nodes = set;
    Ok(())
}
