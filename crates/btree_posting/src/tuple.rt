//! Index tuples and their tids; `tuple` is the item's bytes.

ghost use Rattle.std.specs.Prelude.{ℕ, ◌≡◌, ◌+◌, ◌*◌, ◌<◌, ◌≤◌, length, IsTrue};
ghost use Rattle.std.specs.List.{concat};
ghost use Rattle.btree_posting.specs.Tuple.{is_posting_tuple, tid_count, list_at, list_stands, HasList, tids_of, has_tids, key_of, is_key};

use page_layout::bytes::u16_at;

/// The bytes of a tuple's header (`IndexTupleData`).
const HEADER_SIZE: usize = 8;

/// The bytes of a tid (`ItemPointerData`).
pub const TID_SIZE: usize = 6;

/// `INDEX_ALT_TID_MASK` in `t_info`, and `BT_IS_POSTING` in the tid's offset.
pub const LISTS: usize = 0x2000;

// Whether a tuple has a list of tids, wherever that stands.
fn is_posting_tuple(tuple: &[u8]) -> bool
    ensures value { result ≡ is_posting_tuple tuple.now }
    ensures header { IsTrue result → 8 ≤ length tuple.now }
{
    tuple.len() >= HEADER_SIZE
        && u16_at(tuple, 6) / LISTS % 2 == 1
        && u16_at(tuple, 4) / LISTS % 2 == 1
}

/// How many tids a posting tuple has.
pub fn tid_count(tuple: &[u8]) -> usize
    requires { 8 ≤ length tuple.now }
    ensures value { result ≡ tid_count tuple.now }
    ensures bound { result < 4096 }
{
    u16_at(tuple, 4) % 0x1000
}

/// Where a posting tuple's list begins, right behind its key.
pub fn list_at(tuple: &[u8]) -> usize
    requires { 8 ≤ length tuple.now }
    ensures value { result ≡ list_at tuple.now }
    ensures bound { result < 4294967296 }
{
    65536 * u16_at(tuple, 0) + u16_at(tuple, 2)
}

/// Whether a tuple is a posting tuple whose list stands in it.
#[tactic(auto, using(crate::proofs::TupleLemmas::has_list))]
pub fn list_stands(tuple: &[u8]) -> bool
    ensures value { result ≡ list_stands tuple.now }
    ensures list { IsTrue result → HasList tuple.now }
{
    if !is_posting_tuple(tuple) {
        return false;
    }
    let count = tid_count(tuple);
    let at = list_at(tuple);
    2 <= count && 8 <= at && at % 8 == 0 && at + TID_SIZE * count <= tuple.len()
}

/// The tids of a posting tuple, one after another.
pub fn list_of(tuple: &[u8]) -> &[u8]
    requires { IsTrue (list_stands tuple.now) }
    ensures value { result.now ≡ concat (tids_of tuple.now) }
    ensures size { length result.now ≡ 6 * tid_count tuple.now }
    ensures count { length (tids_of tuple.now) ≡ tid_count tuple.now }
{
    let at = list_at(tuple);
    let end = at + TID_SIZE * tid_count(tuple);
    &tuple[at..end]
}

/// The tids of a tuple, one after another; empty where it has none.
pub fn tids_of(tuple: &[u8]) -> &[u8]
    ensures value { result.now ≡ concat (tids_of tuple.now) }
    ensures count { length result.now ≡ 6 * length (tids_of tuple.now) }
{
    if list_stands(tuple) {
        return list_of(tuple);
    }
    if is_posting_tuple(tuple) || tuple.len() < HEADER_SIZE {
        return &tuple[..0];
    }
    &tuple[..TID_SIZE]
}

/// Whether a tuple has tids.
pub fn has_tids(tuple: &[u8]) -> bool
    ensures { result ≡ has_tids tuple.now }
{
    !tids_of(tuple).is_empty()
}

/// The key of a tuple, with its header.
pub fn key_of(tuple: &[u8]) -> &[u8]
    ensures value { result.now ≡ key_of tuple.now }
    ensures bound { length result.now ≤ length tuple.now }
{
    if !is_posting_tuple(tuple) {
        return tuple;
    }
    let at = list_at(tuple);
    if at < tuple.len() {
        &tuple[..at]
    } else {
        tuple
    }
}

/// Whether a key can get a list behind it.
pub fn is_key(key: &[u8]) -> bool
    ensures { result ≡ is_key key.now }
{
    8 <= key.len() && key.len() % 8 == 0
}
