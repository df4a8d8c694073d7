//! The names of resource managers.

ghost use Rattle.std.specs.Prelude.{◌≡◌, ◌<◌, ◌++◌, [], IfOk, OnErr, get_or, string_bytes};
ghost use Rattle.rmgr_desc.specs.Managers.{manager_name_of, manager_names};

use crate::pieces::or_emptied;
use std::alloc::{AllocError, Global};
use wal_base::{OutOfMemory, Text};

/// The name of a resource manager: `XLOG` to `LogicalMessage` for 0 to 21, `custom128` to `custom255`
/// from 128 on, and `UNKNOWN` for all others. Answers `OutOfMemory` only for want of memory.
pub fn manager_name(alloc: Global, manager: u8) -> Result<Text, OutOfMemory>
    ensures { IfOk result (λ text. text ≡ manager_name_of manager) }
{
    let mut text = String::new(alloc);
    add_manager_name(&mut text, manager)?;
    Ok(Text::from(text))
}

/// Adds what `manager_name` gives to a text. Answers `OutOfMemory` only for want of memory, and then
/// the text is empty.
pub fn add_manager_name(text: &mut String, manager: u8) -> Result<(), OutOfMemory>
    ensures ok { IfOk result (λ _. string_bytes text.new
        ≡ string_bytes text.old ++ manager_name_of manager) }
    ensures err { OnErr result (string_bytes text.new ≡ []) }
{
    let added = add_name(text, manager);
    or_emptied(text, added)
}

#[tactic(auto, unfolding(crate::specs::Managers::manager_name_of))]
fn add_name(text: &mut String, manager: u8) -> Result<(), AllocError>
    ensures { IfOk result (λ _. string_bytes text.new
        ≡ string_bytes text.old ++ manager_name_of manager) }
{
    if manager < 22 {
        return text.push_str(listed_name(manager));
    }
    if manager < 128 {
        return text.push_str("UNKNOWN");
    }
    write!(text, "custom{manager}")
}

pub(crate) fn listed_name(manager: u8) -> &'static str
    requires { manager < 22 }
    ensures { result.now ≡ get_or manager_names manager [] }
{
    match manager {
        0 => "XLOG",
        1 => "Transaction",
        2 => "Storage",
        3 => "CLOG",
        4 => "Database",
        5 => "Tablespace",
        6 => "MultiXact",
        7 => "RelMap",
        8 => "Standby",
        9 => "Heap2",
        10 => "Heap",
        11 => "Btree",
        12 => "Hash",
        13 => "Gin",
        14 => "Gist",
        15 => "Sequence",
        16 => "SPGist",
        17 => "BRIN",
        18 => "CommitTs",
        19 => "ReplicationOrigin",
        20 => "Generic",
        _ => "LogicalMessage",
    }
}
