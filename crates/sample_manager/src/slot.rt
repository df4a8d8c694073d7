//! The layout of an update.

ghost use Rattle.std.specs.Prelude.{◌≡◌};
ghost use Rattle.sample_manager.specs.Slot.{slot_update_of};

use layout::{u16_at, u32_at};

/// What an update says.
#[derive(Clone, Copy, Debug, PartialEq, Eq)]
pub struct SlotUpdate {
    /// The slot of the page, counted from 0.
    pub slot: u16,
    /// Its new value.
    pub value: u32,
}

impl SlotUpdate {
    /// The layout at the front of the main bytes, or `None` where there are fewer than 6.
    #[tactic(auto, unfolding(crate::specs::Slot::slot_update_of))]
    pub fn read(bytes: &[u8]) -> Option<SlotUpdate>
        ensures { result ≡ slot_update_of bytes.now }
    {
        if bytes.len() < 6 {
            return None;
        }
        Some(SlotUpdate {
            slot: u16_at(bytes, 0),
            value: u32_at(bytes, 2),
        })
    }
}
