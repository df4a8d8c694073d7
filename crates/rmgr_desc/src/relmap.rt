//! Texts of the manager RelMap.

ghost use Rattle.std.specs.Prelude.{◌≡◌, ◌++◌, IfOk, string_bytes};
ghost use Rattle.record_layouts.specs.RelMap.{relmap_update_of};
ghost use Rattle.rmgr_desc.specs.Database.{relmap_text, relmap_updated_text};
ghost use Rattle.rmgr_desc.specs.Pieces.{or_short};

use crate::pieces::add_short;
use record_layouts::{RelMapOp, RelMapUpdate};
use std::alloc::AllocError;

/// Adds the text of an operation with these main bytes.
pub fn add_relmap(text: &mut String, op: RelMapOp, main: &[u8]) -> Result<(), AllocError>
    ensures { IfOk result (λ _. string_bytes text.new
        ≡ string_bytes text.old ++ relmap_text op main.now) }
{
    match op {
        RelMapOp::Update => add_updated(text, main),
        RelMapOp::Unlisted(_) => Ok(()),
    }
}

fn add_updated(text: &mut String, main: &[u8]) -> Result<(), AllocError>
    ensures { IfOk result (λ _. string_bytes text.new
        ≡ string_bytes text.old ++ or_short relmap_updated_text (relmap_update_of main.now)) }
{
    let Some(update) = RelMapUpdate::read(main) else {
        return add_short(text);
    };
    let database = update.database;
    let space = update.space;
    let size = update.map.slice().len();
    write!(text, "database {database} space {space} size {size}")
}
