//! The room of a record's bytes, which come page by page.

ghost use Rattle.std.specs.Prelude.{◌≡◌, ◌+◌, ◌≤◌, ◌++◌, min, max, length, IfOk, OnOk};
ghost use Rattle.std.specs.Vec.{vec_capacity};

use std::alloc::AllocError;

/// Makes room for more bytes of a record of which `left` are still to come: for as many as there
/// are, if that is more, but never for more than were announced.
fn make_room(bytes: &mut Vec<u8>, more: usize, left: u32) -> Result<(), AllocError>
    requires announced { more ≤ left }
    ensures items { bytes.new.items ≡ bytes.old.items }
    ensures enough { OnOk result (length bytes.old.items + more ≤ vec_capacity bytes.new) }
    ensures announced { OnOk result (vec_capacity bytes.new
        ≤ max (vec_capacity bytes.old) (length bytes.old.items + left)) }
    ensures doubled { OnOk result (vec_capacity bytes.new
        ≤ max (vec_capacity bytes.old) (length bytes.old.items + max more (length bytes.old.items))) }
{
    if more <= bytes.capacity() - bytes.len() {
        return Ok(());
    }
    bytes.reserve_exact(more.max(bytes.len()).min(left as usize))
}

/// Adds bytes of a record of which `left` are still to come, these among them.
pub fn add_piece(bytes: &mut Vec<u8>, piece: &[u8], left: u32) -> Result<(), AllocError>
    requires announced { length piece.now ≤ left }
    ensures items { IfOk result (λ _. bytes.new.items ≡ bytes.old.items ++ piece.now) }
{
    make_room(bytes, piece.len(), left)?;
    bytes.extend_from_slice(piece)
}
