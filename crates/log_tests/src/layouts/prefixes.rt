//! What is there of layouts of a fixed size that are not whole.
use crate::told::Told;
use record_layouts::*;

/// Tells what is there, by the layout's name.
pub fn prefix(told: &mut Told<'_>, name: &str, bytes: &[u8]) -> bool {
    match name {
        "CreatedName" => told.read(StorageCreate::rel_if_whole(bytes)),
        "CutName" => told.read(StorageTruncate::rel_if_whole(bytes)),
        "CreatePrefix" => told.shows("", &DatabaseCreatePrefix::read(bytes)),
        "ParameterPrefix" => told.shows("", &ParameterPrefix::read(bytes)),
        "CheckpointPrefix" => told.shows("", &CheckpointPrefix::read(bytes)),
        _ => return false,
    }
    true
}
