ghost use Rattle.std.specs.Prelude.{ℕ, ◌≡◌, ◌-◌, ◌<◌, ◌≤◌, length, IsTrue};
ghost use Rattle.page_layout.specs.Page.{IsFormed, item};
ghost use Rattle.redo_steps.specs.Redo.{Redoes};
ghost use Rattle.redo_steps.specs.Tuple.{hoff};
ghost use Rattle.heap_tuples.specs.Heap.{has_tuple, with_tuple};
ghost use Rattle.heap_tuples.specs.Inplace.{with_values, values_fit, inplace_page};

use crate::heap::{has_tuple, tuple_span};
use page_layout::RedoWhy;
use page_layout::bytes::put;
use record_layouts::HeapInplace;

// Where the tuple's values begin.
fn values_start(tuple: &[u8]) -> usize
    requires { 23 ≤ length tuple.now }
    ensures value { result ≡ hoff tuple.now }
    ensures bound { result < 256 }
{
    tuple[22] as usize
}

// Whether the values are as many bytes as the tuple has behind its header.
fn values_fit(tuple: &[u8], values: &[u8]) -> bool
    requires { 23 ≤ length tuple.now }
    ensures { result ≡ values_fit values.now tuple.now }
{
    values_start(tuple) + values.len() == tuple.len()
}

// The same of the tuple at a place.
fn fit_at(page: &[u8], place: u16, values: &[u8]) -> bool
    requires formed { IsFormed page.now }
    requires tuple { IsTrue (has_tuple page.now place) }
    ensures { result ≡ values_fit values.now (item page.now (place - 1)) }
{
    let at = tuple_span(page, place);
    values_fit(&page[at.start..at.end], values)
}

fn put_values(tuple: &mut [u8], values: &[u8])
    requires long { 23 ≤ length tuple.old }
    requires fit { IsTrue (values_fit values.now tuple.old) }
    ensures value { tuple.new ≡ with_values values.now tuple.old }
    ensures size { length tuple.new ≡ length tuple.old }
{
    let at = values_start(tuple);
    put(tuple, at, values);
}

fn put_values_at(page: &mut [u8], place: u16, values: &[u8])
    requires formed { IsFormed page.old }
    requires tuple { IsTrue (has_tuple page.old place) }
    requires fit { IsTrue (values_fit values.now (item page.old (place - 1))) }
    ensures { page.new ≡ with_tuple place (with_values values.now) page.old }
{
    let at = tuple_span(page, place);
    put_values(&mut page[at.start..at.end], values);
}

/// Redoes INPLACE on a heap page: the tuple's values become those of the block's bytes. Answers
/// `Place` where the place has no tuple, or one with values of another length.
pub fn redo_inplace(page: &mut [u8], op: &HeapInplace, values: &[u8]) -> Result<(), RedoWhy>
    requires { IsFormed page.old }
    ensures exact { Redoes (inplace_page op.now values.now page.old) page.old result page.new }
{
    if !has_tuple(page, op.off) {
        return Err(RedoWhy::Place);
    }
    if !fit_at(page, op.off, values) {
        return Err(RedoWhy::Place);
    }
    put_values_at(page, op.off, values);
    Ok(())
}
