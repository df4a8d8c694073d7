// The list of the changing calls of a tree in memory, and what a stop may leave of it.
ghost use Rattle.std.specs.Prelude.{◌≡◌, ◌<◌, ◌++◌, [], ◌∷◌, OnOk, OnErr, length};
ghost use Rattle.std.specs.Vec.{vec_capacity};

use crate::copies::{copy_call, copy_nodes};
use crate::nodes::Placed;
use cluster_tree::{ChangeCall, OutOfMemory};
use std::alloc::Global;
use std::mem;

/// The nodes that were synced, and the changing calls from there to the next sync.
#[derive(Drop)]
pub(crate) struct Epoch {
    pub(crate) synced: Vec<Placed>,
    pub(crate) pending: Vec<ChangeCall>,
}

/// The changing calls so far, in order, and the times between their syncs, the last one apart.
#[derive(Drop)]
pub(crate) struct Log {
    pub(crate) calls: Vec<ChangeCall>,
    pub(crate) now: Epoch,
    pub(crate) past: Vec<Epoch>,
}

impl Log {
    ghost use Rattle.memory_tree.specs.Memory.{contents_of, stops_of};
    ghost use Rattle.cluster_tree.specs.Stops.{synced_alone, with_pending, with_synced};

    /// No call, and these nodes synced.
    pub(crate) fn new(alloc: Global, synced: Vec<Placed>) -> Log
        ensures uncalled { result.calls.items ≡ [] }
        ensures synced { stops_of result ≡ synced_alone (contents_of synced.items) }
    {
        let now = Epoch {
            synced,
            pending: Vec::new(alloc),
        };
        Log {
            calls: Vec::new(alloc),
            now,
            past: Vec::new(alloc),
        }
    }

    /// Makes room for one more call.
    pub(crate) fn make_room(&mut self) -> Result<(), OutOfMemory>
        ensures same { self.new.calls.items ≡ self.old.calls.items }
        ensures kept { stops_of self.new ≡ stops_of self.old }
        ensures room { OnOk result (length self.new.calls.items < vec_capacity self.new.calls) }
        ensures pending_room { OnOk result
            (length self.new.now.pending.items < vec_capacity self.new.now.pending) }
    {
        self.calls.reserve(1)?;
        self.now.pending.reserve(1)?;
        Ok(())
    }

    /// Adds a call and its copy at the end, where there is room.
    pub(crate) fn put(&mut self, call: ChangeCall, copy: ChangeCall)
        requires same { copy ≡ call }
        requires room { length self.old.calls.items < vec_capacity self.old.calls }
        requires pending_room { length self.old.now.pending.items < vec_capacity self.old.now.pending }
        ensures listed { self.new.calls.items ≡ self.old.calls.items ++ call ∷ [] }
        ensures pending { stops_of self.new ≡ with_pending call (stops_of self.old) }
    {
        self.calls.push_reserved(call);
        self.now.pending.push_reserved(copy);
    }

    /// Adds a call that isn't a sync at the end.
    pub(crate) fn add(&mut self, alloc: Global, call: ChangeCall) -> Result<(), OutOfMemory>
        ensures listed { OnOk result (self.new.calls.items ≡ self.old.calls.items ++ call ∷ []) }
        ensures unlisted { OnErr result (self.new.calls.items ≡ self.old.calls.items) }
        ensures pending { OnOk result
            (stops_of self.new ≡ with_pending call (stops_of self.old)) }
        ensures kept { OnErr result (stops_of self.new ≡ stops_of self.old) }
    {
        let copy = copy_call(alloc, &call)?;
        self.make_room()?;
        self.put(call, copy);
        Ok(())
    }

    /// Begins the time after a sync of these nodes, without a call.
    pub(crate) fn begin(&mut self, alloc: Global, synced: Vec<Placed>) -> Result<(), OutOfMemory>
        ensures calls { self.new.calls ≡ self.old.calls }
        ensures synced { OnOk result (stops_of self.new ≡ with_synced
            (contents_of synced.items) (stops_of self.old)) }
        ensures kept { OnErr result (stops_of self.new ≡ stops_of self.old) }
    {
        self.past.reserve(1)?;
        let next = Epoch {
            synced,
            pending: Vec::new(alloc),
        };
        let ended = mem::replace(&mut self.now, next);
        self.past.push_reserved(ended);
        Ok(())
    }

    /// Adds a sync of these nodes at the end.
    pub(crate) fn sync(&mut self, alloc: Global, nodes: &[Placed]) -> Result<(), OutOfMemory>
        ensures listed { OnOk result
            (self.new.calls.items ≡ self.old.calls.items ++ ChangeCall.Sync ∷ []) }
        ensures unlisted { OnErr result (self.new.calls.items ≡ self.old.calls.items) }
        ensures synced { OnOk result (stops_of self.new ≡ with_synced
            (contents_of nodes.now) (stops_of self.old)) }
        ensures kept { OnErr result (stops_of self.new ≡ stops_of self.old) }
    {
        let synced = copy_nodes(alloc, nodes)?;
        self.calls.reserve(1)?;
        self.begin(alloc, synced)?;
        self.calls.push_reserved(ChangeCall::Sync);
        Ok(())
    }
}
