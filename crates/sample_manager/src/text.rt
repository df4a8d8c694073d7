//! The texts of the sample's records.

ghost use Rattle.std.specs.Prelude.{◌≡◌, ◌++◌, IfOk, string_bytes};
ghost use Rattle.sample_manager.specs.Slot.{slot_update_of};
ghost use Rattle.sample_manager.specs.Text.{or_short, sample_text};

use crate::operation::SampleOp;
use crate::slot::SlotUpdate;
use std::alloc::AllocError;

/// Adds the text of an operation with these main bytes.
pub fn add_text(text: &mut String, op: SampleOp, main: &[u8]) -> Result<(), AllocError>
    ensures { IfOk result (λ _. string_bytes text.new
        ≡ string_bytes text.old ++ sample_text op main.now) }
{
    match op {
        SampleOp::Init => text.push_str("init"),
        SampleOp::Update => add_update(text, main),
        SampleOp::Unlisted => Ok(()),
    }
}

// Adds the text of an update, `(short)` where the bytes hold none.
fn add_update(text: &mut String, main: &[u8]) -> Result<(), AllocError>
    ensures { IfOk result (λ _. string_bytes text.new
        ≡ string_bytes text.old ++ or_short (slot_update_of main.now)) }
{
    let Some(update) = SlotUpdate::read(main) else {
        return text.push_str("(short)");
    };
    let slot = update.slot;
    let value = update.value;
    write!(text, "slot {slot}, value {value}")
}
