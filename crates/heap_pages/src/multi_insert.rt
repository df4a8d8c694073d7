ghost use Rattle.std.specs.Prelude.{ℕ, ◌≡◌, ◌+◌, ◌≤◌, length, IsOk};
ghost use Rattle.std.specs.List.{list_all};
ghost use Rattle.page_layout.specs.Page.{IsFormed};
ghost use Rattle.redo_steps.specs.Redo.{Makes};
ghost use Rattle.block_layouts.specs.Tuple.{tuple_seen};
ghost use Rattle.heap_tuples.specs.Put.{is_open, put_tuple};
ghost use Rattle.heap_pages.specs.NewTuple.{new_tuple};
ghost use Rattle.heap_pages.specs.MultiInsert.{are_distinct, are_open, put_tuples, multi_insert_page};

use crate::insert::put_visible_told;
use crate::new_tuple::{NewTuple, put_new_tuple};
use block_layouts::{HeapTuple, HeapTuples};
use heap_tuples::put::is_open;
use page_layout::RedoWhy;

/// The most tuples of a page (`MaxHeapTuplesPerPage`).
const MOST_TUPLES: usize = 291;

/// The transaction that inserts, and the block that its tuples come to.
#[derive(Clone, Copy)]
pub struct Inserter {
    /// The record's transaction.
    pub xid: u32,
    /// The block's number.
    pub block: u32,
}

// Whether no place comes twice.
fn are_distinct(places: &[u16]) -> bool
    ensures { result ≡ are_distinct places.now }
{
    match places {
        [] => true,
        [first, rest @ ..] => !rest.contains(first) && are_distinct(rest),
    }
}

// Whether each place may get a new tuple.
fn all_open(page: &[u8], places: &[u16]) -> bool
    requires { IsFormed page.now }
    ensures { result ≡ list_all (is_open page.now) places.now }
{
    match places {
        [] => true,
        [first, rest @ ..] => is_open(page, *first) && all_open(page, rest),
    }
}

// Whether new tuples may come to these places.
fn are_open(page: &[u8], places: &[u16]) -> bool
    requires { IsFormed page.now }
    ensures { result ≡ are_open page.now places.now }
{
    places.len() <= MOST_TUPLES && all_open(page, places) && are_distinct(places)
}

// Adds a tuple at a place.
fn put_one(page: &mut [u8], from: Inserter, place: u16, tuple: HeapTuple<'_>) -> Result<(), RedoWhy>
    requires { IsFormed page.old }
    ensures exact { Makes (put_tuple place (new_tuple from.xid 0 from.block place (tuple_seen tuple.entry)) page.old) result page.new }
    ensures formed { IsFormed page.new }
{
    let new = NewTuple {
        xmin: from.xid,
        xmax: 0,
        block: from.block,
        place,
    };
    put_new_tuple(page, new, tuple)
}

// Adds the tuples, each at its place.
fn put_tuples(
    page: &mut [u8],
    from: Inserter,
    places: &[u16],
    mut tuples: HeapTuples<'_>,
) -> Result<(), RedoWhy>
    requires { IsFormed page.old }
    ensures exact { Makes (put_tuples from.xid from.block places.now tuples.entry page.old) result page.new }
    ensures size { IsOk result → length page.new ≡ 8192 }
{
    let mut i = 0;
    while let Some(tuple) = tuples.next() {
        if i >= places.len() {
            return Ok(());
        }
        put_one(page, from, places[i], tuple)?;
        i += 1;
    }
    Ok(())
}

/// Redoes MULTI_INSERT with these flags on a heap page, with the places and tuples in their order.
/// Answers `Place` where there are more than 291 places, one comes twice, is 0, above 291 or in
/// use, then `Room`; what a refused call leaves is open.
pub fn redo_multi_insert(
    page: &mut [u8],
    from: Inserter,
    flags: u8,
    places: &[u16],
    tuples: HeapTuples<'_>,
) -> Result<(), RedoWhy>
    requires { IsFormed page.old }
    ensures exact { Makes (multi_insert_page from.xid from.block flags places.now tuples.entry page.old) result page.new }
{
    if !are_open(page, places) {
        return Err(RedoWhy::Place);
    }
    put_tuples(page, from, places, tuples)?;
    put_visible_told(page, flags);
    Ok(())
}
