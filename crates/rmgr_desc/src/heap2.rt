//! Texts of the manager Heap2.

ghost use Rattle.std.specs.Prelude.{◌≡◌, ◌++◌, IfOk, string_bytes};
ghost use Rattle.record_layouts.specs.Heap2.{heap_freeze_page_of, heap_prune_of, heap_vacuum_of, heap_visible_of, multi_insert_of};
ghost use Rattle.rmgr_desc.specs.Heap.{freeze_text, heap2_text, multi_insert_text, prune_text, vacuum_text, visible_text};
ghost use Rattle.rmgr_desc.specs.Pieces.{or_short};

use crate::heap::add_lock;
use crate::pieces::{Flags, add_short};
use record_layouts::{
    Heap2Op, HeapFreezePage, HeapMultiInsert, HeapPrune, HeapVacuum, HeapVisible,
};
use std::alloc::AllocError;

/// Adds the text of an operation with these main bytes.
pub fn add_heap2(text: &mut String, op: Heap2Op, main: &[u8]) -> Result<(), AllocError>
    ensures { IfOk result (λ _. string_bytes text.new
        ≡ string_bytes text.old ++ heap2_text op main.now) }
{
    match op {
        Heap2Op::Prune => add_prune(text, main),
        Heap2Op::Vacuum => add_vacuum(text, main),
        Heap2Op::FreezePage => add_freeze(text, main),
        Heap2Op::Visible => add_visible(text, main),
        Heap2Op::MultiInsert { init } => add_multi_insert(text, init, main),
        Heap2Op::LockUpdated => add_lock(text, main),
        Heap2Op::Rewrite | Heap2Op::NewCid => Ok(()),
    }
}

fn add_prune(text: &mut String, main: &[u8]) -> Result<(), AllocError>
    ensures { IfOk result (λ _. string_bytes text.new
        ≡ string_bytes text.old ++ or_short prune_text (heap_prune_of main.now)) }
{
    let Some(prune) = HeapPrune::read(main) else {
        return add_short(text);
    };
    let horizon = prune.horizon;
    let redirected = prune.nredirected;
    let dead = prune.ndead;
    write!(
        text,
        "horizon: {horizon}, nredirected: {redirected}, ndead: {dead}"
    )
}

fn add_vacuum(text: &mut String, main: &[u8]) -> Result<(), AllocError>
    ensures { IfOk result (λ _. string_bytes text.new
        ≡ string_bytes text.old ++ or_short vacuum_text (heap_vacuum_of main.now)) }
{
    let Some(vacuum) = HeapVacuum::read(main) else {
        return add_short(text);
    };
    let unused = vacuum.nunused;
    write!(text, "nunused: {unused}")
}

fn add_freeze(text: &mut String, main: &[u8]) -> Result<(), AllocError>
    ensures { IfOk result (λ _. string_bytes text.new
        ≡ string_bytes text.old ++ or_short freeze_text (heap_freeze_page_of main.now)) }
{
    let Some(freeze) = HeapFreezePage::read(main) else {
        return add_short(text);
    };
    let horizon = freeze.horizon;
    let plans = freeze.nplans;
    write!(text, "horizon: {horizon}, nplans: {plans}")
}

fn add_visible(text: &mut String, main: &[u8]) -> Result<(), AllocError>
    ensures { IfOk result (λ _. string_bytes text.new
        ≡ string_bytes text.old ++ or_short visible_text (heap_visible_of main.now)) }
{
    let Some(visible) = HeapVisible::read(main) else {
        return add_short(text);
    };
    let horizon = visible.horizon;
    let flags = Flags(visible.flags);
    write!(text, "horizon: {horizon}, flags: {flags}")
}

fn add_multi_insert(text: &mut String, init: bool, main: &[u8]) -> Result<(), AllocError>
    ensures { IfOk result (λ _. string_bytes text.new
        ≡ string_bytes text.old ++ or_short multi_insert_text (multi_insert_of init main.now)) }
{
    let Some(insert) = HeapMultiInsert::read(init, main) else {
        return add_short(text);
    };
    let tuples = insert.places.len();
    let flags = Flags(insert.flags);
    write!(text, "ntuples: {tuples}, flags: {flags}")
}
