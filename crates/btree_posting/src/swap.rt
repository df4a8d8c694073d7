//! A new tid in a posting tuple's list, and the last one out of it.

ghost use Rattle.std.specs.Prelude.{ℕ, ◌≡◌, ◌+◌, ◌<◌, ◌≤◌, length, take, IsTrue};
ghost use Rattle.layout.specs.Splice.{splice};
ghost use Rattle.btree_posting.specs.Tuple.{list_stands};
ghost use Rattle.btree_posting.specs.Form.{can_swap, swapped_posting, last_tid};

use crate::form::lay;
use crate::tuple::{TID_SIZE, list_at, list_stands, tid_count};

/// Whether a new tid can come to an index of a posting tuple's list, counted from 0.
pub fn can_swap(tuple: &[u8], k: u16) -> bool
    ensures { result ≡ can_swap k tuple.now }
{
    if !list_stands(tuple) {
        return false;
    }
    0 < k && usize::from(k) < tid_count(tuple)
}

/// Lays at the front of a room the posting tuple with the new tuple's tid at an index of its list.
pub fn lay_swapped(room: &mut [u8], tuple: &[u8], k: u16, new: &[u8])
    requires can { IsTrue (can_swap k tuple.now) }
    requires fits { length tuple.now ≤ length room.old }
    requires new { 6 ≤ length new.now }
    ensures { take (length tuple.now) room.new ≡ swapped_posting k new.now tuple.now }
{
    let at = list_at(tuple);
    let here = at + TID_SIZE * usize::from(k);
    let behind = at + TID_SIZE * tid_count(tuple);
    let end = lay(room, 0, &tuple[..here]);
    let end = lay(room, end, &new[..TID_SIZE]);
    let end = lay(room, end, &tuple[here..behind - TID_SIZE]);
    lay(room, end, &tuple[behind..]);
}

/// The tid that a posting tuple's list then loses.
pub fn last_tid(tuple: &[u8]) -> &[u8]
    requires { IsTrue (list_stands tuple.now) }
    ensures value { result.now ≡ last_tid tuple.now }
    ensures size { length result.now ≡ 6 }
{
    let behind = list_at(tuple) + TID_SIZE * tid_count(tuple);
    &tuple[behind - TID_SIZE..behind]
}

/// Lays at the front of a room the new tuple with another tid.
pub fn lay_with_tid(room: &mut [u8], new: &[u8], tid: &[u8])
    requires fits { length new.now ≤ length room.old }
    requires new { 6 ≤ length new.now }
    requires size { length tid.now ≡ 6 }
    ensures { take (length new.now) room.new ≡ splice new.now 0 tid.now }
{
    let end = lay(room, 0, tid);
    lay(room, end, &new[TID_SIZE..]);
}
