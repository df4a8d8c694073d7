//! Which references of a heap record have an effect.

ghost use Rattle.std.specs.Prelude.{ℕ, ◌≡◌};
ghost use Rattle.heap_replay.specs.Operation.{heap_acts_on, heap2_acts_on, acts_on, heap_makes_anew, heap2_makes_anew, makes_anew};

use record_layouts::{Heap2Op, HeapOp, Operation};

fn heap_acts_on(op: HeapOp, id: u8) -> bool
    ensures { result ≡ heap_acts_on op id }
{
    match op {
        HeapOp::Truncate => false,
        HeapOp::Update { .. } | HeapOp::HotUpdate { .. } => id == 0 || id == 1,
        _ => id == 0,
    }
}

fn heap2_acts_on(op: Heap2Op, id: u8) -> bool
    ensures { result ≡ heap2_acts_on op id }
{
    match op {
        Heap2Op::Rewrite | Heap2Op::NewCid => false,
        Heap2Op::Visible => id == 1,
        _ => id == 0,
    }
}

/// Whether an operation changes the main fork's page of the reference with an id: that is 0, for
/// UPDATE and HOT_UPDATE also 1, and for VISIBLE 1 alone, whose 0 is the visibility map's.
/// Operations of other managers change none.
pub fn acts_on(op: Operation, id: u8) -> bool
    ensures { result ≡ acts_on op id }
{
    match op {
        Operation::Heap(op) => heap_acts_on(op, id),
        Operation::Heap2(op) => heap2_acts_on(op, id),
        _ => false,
    }
}

fn heap_makes_anew(op: HeapOp) -> bool
    ensures { result ≡ heap_makes_anew op }
{
    match op {
        HeapOp::Insert { init } => init,
        HeapOp::Update { init } => init,
        HeapOp::HotUpdate { init } => init,
        _ => false,
    }
}

fn heap2_makes_anew(op: Heap2Op) -> bool
    ensures { result ≡ heap2_makes_anew op }
{
    match op {
        Heap2Op::MultiInsert { init } => init,
        _ => false,
    }
}

/// Whether an operation makes the page of reference 0 anew, whatever it was
/// (`XLOG_HEAP_INIT_PAGE`).
pub fn makes_anew(op: Operation) -> bool
    ensures { result ≡ makes_anew op }
{
    match op {
        Operation::Heap(op) => heap_makes_anew(op),
        Operation::Heap2(op) => heap2_makes_anew(op),
        _ => false,
    }
}
