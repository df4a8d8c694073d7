//! Texts of the manager Database.

ghost use Rattle.std.specs.Prelude.{◌≡◌, ◌++◌, IfOk, string_bytes};
ghost use Rattle.record_layouts.specs.Database.{database_copy_of, database_create_of, database_drop_of};
ghost use Rattle.rmgr_desc.specs.Database.{database_copied_text, database_dropped_text, database_made_text, database_text};
ghost use Rattle.rmgr_desc.specs.Pieces.{or_short};

use crate::pieces::add_short;
use record_layouts::{DatabaseCopy, DatabaseCreate, DatabaseDrop, DatabaseOp};
use std::alloc::AllocError;

/// Adds the text of an operation with these main bytes.
pub fn add_database(text: &mut String, op: DatabaseOp, main: &[u8]) -> Result<(), AllocError>
    ensures { IfOk result (λ _. string_bytes text.new
        ≡ string_bytes text.old ++ database_text op main.now) }
{
    match op {
        DatabaseOp::CreateFileCopy => add_copied(text, main),
        DatabaseOp::CreateWalLog => add_made(text, main),
        DatabaseOp::Drop => add_dropped(text, main),
        DatabaseOp::Unlisted(_) => Ok(()),
    }
}

fn add_copied(text: &mut String, main: &[u8]) -> Result<(), AllocError>
    ensures { IfOk result (λ _. string_bytes text.new
        ≡ string_bytes text.old ++ or_short database_copied_text (database_copy_of main.now)) }
{
    let Some(copy) = DatabaseCopy::read(main) else {
        return add_short(text);
    };
    let database = copy.database;
    let space = copy.space;
    let from = copy.from_database;
    let from_space = copy.from_space;
    write!(
        text,
        "database {database} space {space} from database {from} space {from_space}"
    )
}

fn add_made(text: &mut String, main: &[u8]) -> Result<(), AllocError>
    ensures { IfOk result (λ _. string_bytes text.new
        ≡ string_bytes text.old ++ or_short database_made_text (database_create_of main.now)) }
{
    let Some(made) = DatabaseCreate::read(main) else {
        return add_short(text);
    };
    let database = made.database;
    let space = made.space;
    write!(text, "database {database} space {space}")
}

fn add_dropped(text: &mut String, main: &[u8]) -> Result<(), AllocError>
    ensures { IfOk result (λ _. string_bytes text.new
        ≡ string_bytes text.old ++ or_short database_dropped_text (database_drop_of main.now)) }
{
    let Some(dropped) = DatabaseDrop::read(main) else {
        return add_short(text);
    };
    let database = dropped.database;
    write!(text, "database {database}")
}
