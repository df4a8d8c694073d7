//! The bytes of an UPDATE's new tuple that stand behind its header.

ghost use Rattle.std.specs.Prelude.{ℕ, ◌≡◌, ◌+◌, ◌-◌, ◌<◌, ◌≤◌, length, take, ◌++◌, IsTrue};
ghost use Rattle.page_layout.specs.Page.{item, IsFormed};
ghost use Rattle.block_layouts.specs.Update.{update_seen};
ghost use Rattle.redo_steps.specs.Tuple.{hoff};
ghost use Rattle.heap_tuples.specs.Heap.{has_tuple};
ghost use Rattle.heap_pages.specs.Update.{parts_fit, old_front, old_back, joined};
ghost use Rattle.heap_pages.specs.NewBody.{IsBody};

use block_layouts::{OldParts, UpdateTuple};
use heap_tuples::heap::tuple_span;
use page_layout::bytes::put;

/// What is made of the bytes.
#[derive(Clone, Copy, Debug, PartialEq, Eq)]
pub enum Body {
    /// The parts of the old tuple aren't there.
    Misfit,
    /// They are more than a page has.
    TooLong,
    /// They are so many.
    Built(usize),
}

// Where the old tuple's values begin.
fn values_start(old: &[u8]) -> usize
    requires { 23 ≤ length old.now }
    ensures value { result ≡ hoff old.now }
    ensures bound { result < 256 }
{
    old[22] as usize
}

// Whether the parts lie apart behind the old tuple's header.
fn parts_fit(old: &[u8], parts: OldParts, tuple: &UpdateTuple<'_>) -> bool
    requires { 23 ≤ length old.now }
    ensures { result ≡ parts_fit parts (update_seen tuple.now) old.now }
{
    if !parts.prefix && !parts.suffix {
        return true;
    }
    values_start(old) + tuple.prefix as usize + tuple.suffix as usize <= old.len()
}

// The old tuple's first bytes.
#[tactic(auto, unfolding(page_layout::specs::Bytes::cut))]
fn old_front<'a>(old: &'a [u8], parts: OldParts, tuple: &UpdateTuple<'_>) -> &'a [u8]
    requires long { 23 ≤ length old.now }
    requires fit { IsTrue (parts_fit parts (update_seen tuple.now) old.now) }
    ensures value { result.now ≡ old_front parts (update_seen tuple.now) old.now }
    ensures size { length result.now ≤ 65535 }
{
    if !parts.prefix && !parts.suffix {
        return &[];
    }
    let start = values_start(old);
    &old[start..start + tuple.prefix as usize]
}

// The old tuple's last bytes.
#[tactic(auto, unfolding(page_layout::specs::Bytes::cut))]
fn old_back<'a>(old: &'a [u8], parts: OldParts, tuple: &UpdateTuple<'_>) -> &'a [u8]
    requires long { 23 ≤ length old.now }
    requires fit { IsTrue (parts_fit parts (update_seen tuple.now) old.now) }
    ensures value { result.now ≡ old_back parts (update_seen tuple.now) old.now }
    ensures size { length result.now ≤ 65535 }
{
    if !parts.prefix && !parts.suffix {
        return &[];
    }
    let start = old.len() - tuple.suffix as usize;
    &old[start..start + tuple.suffix as usize]
}

// Lays four rows of bytes at the front, one behind the other.
fn lay(into: &mut [u8], a: &[u8], b: &[u8], c: &[u8], d: &[u8])
    requires { length a.now + length b.now + length c.now + length d.now ≤ length into.old }
    ensures value { take (length a.now + length b.now + length c.now + length d.now) into.new
        ≡ a.now ++ b.now ++ c.now ++ d.now }
    ensures size { length into.new ≡ length into.old }
{
    put(into, 0, a);
    let i = a.len();
    put(into, i, b);
    let j = i + b.len();
    put(into, j, c);
    let k = j + c.len();
    put(into, k, d);
}

// The bytes of the new tuple, laid at the front of `into`, if they are there and not too many.
#[tactic(auto, using(crate::proofs::BodyLemmas::four_lengths))]
fn body_of(into: &mut [u8], old: &[u8], parts: OldParts, tuple: &UpdateTuple<'_>) -> Body
    requires room { length into.old ≡ 8192 }
    requires long { 23 ≤ length old.now }
    ensures { IsBody (parts_fit parts (update_seen tuple.now) old.now)
        (joined parts (update_seen tuple.now) old.now) into.new result }
{
    if !parts_fit(old, parts, tuple) {
        return Body::Misfit;
    }
    let front = old_front(old, parts, tuple);
    let back = old_back(old, parts, tuple);
    if tuple.bitmap.len() > 8192 || tuple.bytes.len() > 8192 {
        return Body::TooLong;
    }
    let size = tuple.bitmap.len() + front.len() + tuple.bytes.len() + back.len();
    if size > 8192 {
        return Body::TooLong;
    }
    lay(into, tuple.bitmap, front, tuple.bytes, back);
    Body::Built(size)
}

/// The bytes of the new tuple of the tuple at a place, laid at the front of `into`.
pub fn body_at(
    into: &mut [u8],
    page: &[u8],
    place: u16,
    parts: OldParts,
    tuple: &UpdateTuple<'_>,
) -> Body
    requires room { length into.old ≡ 8192 }
    requires formed { IsFormed page.now }
    requires tuple { IsTrue (has_tuple page.now place) }
    ensures { IsBody (parts_fit parts (update_seen tuple.now) (item page.now (place - 1)))
        (joined parts (update_seen tuple.now) (item page.now (place - 1))) into.new result }
{
    let at = tuple_span(page, place);
    body_of(into, &page[at.start..at.end], parts, tuple)
}
