//! A posting tuple without some of its tids.

ghost use Rattle.std.specs.Prelude.{ℕ, ◌≡◌, ◌+◌, ◌*◌, ◌≤◌, ◌++◌, length, take, true, false, IsTrue, MatchOption};
ghost use Rattle.std.specs.List.{concat};
ghost use Rattle.btree_posting.specs.Tuple.{tid_count, list_stands, tids_of};
ghost use Rattle.btree_posting.specs.Form.{are_indexes, without_tids, can_shorten, shortened};

use crate::form::{finish, lay};
use crate::tuple::{TID_SIZE, list_at, list_of, list_stands, tid_count};
use block_layouts::Places;

// Lays the tids of a posting tuple but for those at these indexes. Answers where they end, or `None`
// where the indexes don't rise or one isn't there.
fn lay_kept(room: &mut [u8], at: usize, tuple: &[u8], mut gone: Places<'_>) -> Option<usize>
    requires room { length room.old ≡ 8192 }
    requires list { IsTrue (list_stands tuple.now) }
    requires fits { at + 6 * tid_count tuple.now ≤ 8184 }
    ensures { MatchOption result (are_indexes 0 (tid_count tuple.now) gone.entry ≡ false)
        (λ end. (are_indexes 0 (tid_count tuple.now) gone.entry ≡ true)
        × (at ≤ end) × (end ≤ 8184)
        × (take end room.new ≡ take at room.old ++ concat (without_tids gone.entry 0 (tids_of tuple.now)))) }
{
    let count = tid_count(tuple);
    let tids = list_of(tuple);
    let mut from = 0;
    let mut end = at;
    while let Some(next) = gone.next() {
        let index = usize::from(next);
        if index < from || index >= count {
            return None;
        }
        end = lay(room, end, &tids[TID_SIZE * from..TID_SIZE * index]);
        from = index + 1;
    }
    Some(lay(room, end, &tids[TID_SIZE * from..]))
}

/// Lays at the front of a room a posting tuple without the tids at these indexes, counted from 0.
/// Answers its size, or `None` where it isn't one that stands, the indexes don't rise, one isn't
/// there, or no tid is left.
pub fn shorten(room: &mut [u8], tuple: &[u8], gone: Places<'_>) -> Option<usize>
    requires room { length room.old ≡ 8192 }
    requires fits { length tuple.now ≤ 8184 }
    ensures { MatchOption result (can_shorten gone.entry tuple.now ≡ false)
        (λ size. (can_shorten gone.entry tuple.now ≡ true) × (size ≤ 8192)
        × (take size room.new ≡ shortened gone.entry tuple.now)) }
{
    if !list_stands(tuple) || gone.len() >= tid_count(tuple) {
        return None;
    }
    let key = list_at(tuple);
    lay(room, 0, &tuple[..key]);
    let end = lay_kept(room, key, tuple, gone)?;
    Some(finish(room, key, end))
}
