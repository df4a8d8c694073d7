//! Records that add tuples.

ghost use Rattle.std.specs.Prelude.{ℕ, ◌≡◌, ◌≤◌, length, take};
ghost use Rattle.page_layout.specs.Page.{IsFormed};
ghost use Rattle.block_refs.specs.Parts.{ArePartsOf};
ghost use Rattle.block_layouts.specs.Tuple.{tuple_seen};
ghost use Rattle.block_layouts.specs.Update.{update_seen};
ghost use Rattle.redo_steps.specs.Redo.{Makes};
ghost use Rattle.heap_tuples.specs.Heap.{on_heap};
ghost use Rattle.heap_pages.specs.Insert.{insert_page};
ghost use Rattle.heap_pages.specs.MultiInsert.{multi_insert_page};
ghost use Rattle.heap_pages.specs.Update.{update_page, update_new_page};
ghost use Rattle.heap_replay.specs.Added.{insert_operation, multi_insert_operation, old_parts, on_one_page, update_first, update_old_operation, update_operation};

use block_layouts::{
    HeapTuple, HeapTuples, OldParts, UpdateTuple, insert_tuple, multi_insert_tuples, update_tuple,
};
use block_refs::Parts;
use heap_pages::{
    Inserter, UpdateKind, redo_insert, redo_multi_insert, redo_update, redo_update_new,
    redo_update_old,
};
use heap_tuples::flags::has_bit;
use heap_tuples::{start_heap, trim_heap};
use page_layout::RedoWhy;
use record_layouts::{HeapInsert, HeapMultiInsert, HeapUpdate, Places};
use redo_reads::{bytes_for, number_at};
use wal_records::Record;

/// The most tuples of a page (`MaxHeapTuplesPerPage`).
const MOST_TUPLES: usize = 291;

/// `XLH_UPDATE_PREFIX_FROM_OLD`.
const PREFIX_FROM_OLD: u8 = 0x20;

/// `XLH_UPDATE_SUFFIX_FROM_OLD`.
const SUFFIX_FROM_OLD: u8 = 0x40;

// The tuple on the page where redo begins.
fn insert_one(
    page: &mut [u8],
    init: bool,
    xid: u32,
    block: u32,
    op: &HeapInsert,
    tuple: HeapTuple<'_>,
) -> Result<(), RedoWhy>
    requires { length page.old ≡ 8192 }
    ensures { Makes (on_heap init (insert_page xid block op.now (tuple_seen tuple.entry)) page.old)
        result page.new }
{
    start_heap(page, init)?;
    redo_insert(page, xid, block, op, tuple)
}

/// INSERT.
pub fn insert(
    rec: &Record,
    parts: &Parts,
    id: u8,
    init: bool,
    page: &mut [u8],
) -> Result<(), RedoWhy>
    requires parts { ArePartsOf rec.now parts.now }
    requires size { length page.old ≡ 8192 }
    ensures { Makes (insert_operation init rec.now parts.now id page.old) result page.new }
{
    let Some(op) = HeapInsert::read(parts.main_bytes(rec)) else {
        return Err(RedoWhy::Layout);
    };
    let bytes = bytes_for(rec, parts, id)?;
    let Some(tuple) = insert_tuple(bytes) else {
        return Err(RedoWhy::Layout);
    };
    let block = number_at(parts, id)?;
    insert_one(page, init, rec.header().xid, block, &op, tuple)
}

// Lays the places at the front.
fn lay_places(into: &mut [u16], places: &Places<'_>)
    requires { length places.now ≤ length into.old }
    ensures { take (length places.now) into.new ≡ places.now }
{
    for i in 0..places.len() {
        if let Some(place) = places.get(i) {
            into[i] = place;
        }
    }
}

// The tuples at these places, once the page is there.
fn insert_all(
    page: &mut [u8],
    from: Inserter,
    flags: u8,
    places: &Places<'_>,
    tuples: HeapTuples<'_>,
) -> Result<(), RedoWhy>
    requires { IsFormed page.old }
    ensures { Makes (multi_insert_page from.xid from.block flags places.now tuples.entry page.old)
        result page.new }
{
    if places.len() > MOST_TUPLES {
        return Err(RedoWhy::Place);
    }
    let mut room = [0u16; 291];
    lay_places(&mut room, places);
    redo_multi_insert(page, from, flags, &room[..places.len()], tuples)
}

/// MULTI_INSERT.
pub fn multi_insert(
    rec: &Record,
    parts: &Parts,
    id: u8,
    init: bool,
    page: &mut [u8],
) -> Result<(), RedoWhy>
    requires parts { ArePartsOf rec.now parts.now }
    requires size { length page.old ≡ 8192 }
    ensures { Makes (multi_insert_operation init rec.now parts.now id page.old) result page.new }
{
    let Some(op) = HeapMultiInsert::read(init, parts.main_bytes(rec)) else {
        return Err(RedoWhy::Layout);
    };
    let bytes = bytes_for(rec, parts, id)?;
    let Some(tuples) = multi_insert_tuples(bytes, op.ntuples) else {
        return Err(RedoWhy::Layout);
    };
    let block = number_at(parts, id)?;
    let from = Inserter {
        xid: rec.header().xid,
        block,
    };
    start_heap(page, init)?;
    insert_all(page, from, op.flags, &op.places, tuples)
}

// Which parts of the old tuple the new one has.
fn old_parts(op: &HeapUpdate) -> OldParts
    ensures { result ≡ old_parts op.now }
{
    OldParts {
        prefix: has_bit(op.flags, PREFIX_FROM_OLD),
        suffix: has_bit(op.flags, SUFFIX_FROM_OLD),
    }
}

// Whether the old tuple is on the new one's page.
fn on_one_page(parts: &Parts) -> bool
    ensures { result ≡ on_one_page parts.now }
{
    parts.block(1).is_none()
}

// Both tuples on the page where redo begins.
fn update_both(
    page: &mut [u8],
    init: bool,
    xid: u32,
    block: u32,
    kind: UpdateKind,
    op: &HeapUpdate,
    old: OldParts,
    tuple: UpdateTuple<'_>,
) -> Result<(), RedoWhy>
    requires { length page.old ≡ 8192 }
    ensures { Makes (on_heap init (update_page xid block kind op.now old (update_seen tuple.entry))
        page.old) result page.new }
{
    start_heap(page, init)?;
    redo_update(page, xid, block, kind, op, old, tuple)
}

// The new tuple alone on the page where redo begins.
fn update_one(
    page: &mut [u8],
    init: bool,
    xid: u32,
    block: u32,
    op: &HeapUpdate,
    tuple: HeapTuple<'_>,
) -> Result<(), RedoWhy>
    requires { length page.old ≡ 8192 }
    ensures { Makes (on_heap init (update_new_page xid block op.now (tuple_seen tuple.entry))
        page.old) result page.new }
{
    start_heap(page, init)?;
    redo_update_new(page, xid, block, op, tuple)
}

// Block 0, of this number.
fn update_first(
    rec: &Record,
    parts: &Parts,
    init: bool,
    kind: UpdateKind,
    op: &HeapUpdate,
    tuple: UpdateTuple<'_>,
    block: u32,
    page: &mut [u8],
) -> Result<(), RedoWhy>
    requires { length page.old ≡ 8192 }
    ensures { Makes (update_first init kind rec.now parts.now op.now (update_seen tuple.entry) block
        page.old) result page.new }
{
    let xid = rec.header().xid;
    let old = old_parts(op);
    if on_one_page(parts) {
        return update_both(page, init, xid, block, kind, op, old, tuple);
    }
    if old.prefix || old.suffix {
        return Err(RedoWhy::Layout);
    }
    let whole = HeapTuple {
        header: tuple.header,
        bytes: tuple.bytes,
    };
    update_one(page, init, xid, block, op, whole)
}

// The page of the old tuple alone.
fn update_old(rec: &Record, parts: &Parts, kind: UpdateKind, page: &mut [u8]) -> Result<(), RedoWhy>
    requires parts { ArePartsOf rec.now parts.now }
    requires size { length page.old ≡ 8192 }
    ensures { Makes (update_old_operation kind rec.now parts.now page.old) result page.new }
{
    let Some(op) = HeapUpdate::read(parts.main_bytes(rec)) else {
        return Err(RedoWhy::Layout);
    };
    let old = old_parts(&op);
    if old.prefix || old.suffix {
        return Err(RedoWhy::Layout);
    }
    let block = number_at(parts, 0)?;
    trim_heap(page)?;
    redo_update_old(page, rec.header().xid, kind, block, &op)
}

/// UPDATE and HOT_UPDATE: the old tuple's page is block 1, or block 0 with the new tuple's.
pub fn update(
    rec: &Record,
    parts: &Parts,
    id: u8,
    init: bool,
    kind: UpdateKind,
    page: &mut [u8],
) -> Result<(), RedoWhy>
    requires parts { ArePartsOf rec.now parts.now }
    requires size { length page.old ≡ 8192 }
    ensures { Makes (update_operation init kind rec.now parts.now id page.old) result page.new }
{
    if id == 1 {
        return update_old(rec, parts, kind, page);
    }
    let Some(op) = HeapUpdate::read(parts.main_bytes(rec)) else {
        return Err(RedoWhy::Layout);
    };
    let bytes = bytes_for(rec, parts, id)?;
    let Some(tuple) = update_tuple(bytes, old_parts(&op)) else {
        return Err(RedoWhy::Layout);
    };
    let block = number_at(parts, id)?;
    update_first(rec, parts, init, kind, &op, tuple, block, page)
}
