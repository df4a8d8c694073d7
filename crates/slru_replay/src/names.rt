// The folders and files of the areas.
ghost use Rattle.std.specs.Prelude.{◌≡◌, ◌≤◌, ◌<◌, length, string_bytes, IfOk};
ghost use Rattle.std.specs.List.{list_all};
ghost use Rattle.wal_base.specs.Hex.{is_upper_hex};
ghost use Rattle.cluster_tree.specs.PathValue.{Holds};
ghost use Rattle.slru_replay.specs.Area.{file_name, folder_of, page_file};
ghost use Rattle.slru_replay.specs.Cutting.{file_number, has_extra_zero, is_file_name, is_name_length};

use crate::area::Area;
use cluster_tree::{OutOfMemory, Path};
use std::alloc::Global;
use wal_base::HexWord;

/// How many pages a file has.
pub(crate) const FILE_PAGES: u32 = 32;

/// The folder of an area.
#[tactic(auto, using(crate::proofs::NameLemmas::folder_steps))]
pub(crate) fn folder_of(alloc: Global, root: &Path, area: Area) -> Result<Path, OutOfMemory>
    requires room { length root.now.parts ≤ 61 }
    ensures value { IfOk result (λ folder. folder ≡ folder_of root.now area) }
{
    match area {
        Area::Status => root.below(alloc, "pg_xact"),
        Area::Offsets => root.below(alloc, "pg_multixact/offsets"),
        Area::Members => root.below(alloc, "pg_multixact/members"),
    }
}

// The name of the file of a number.
fn file_name(alloc: Global, number: u32) -> Result<String, OutOfMemory>
    ensures { IfOk result (λ name. string_bytes name ≡ file_name number) }
{
    let number = HexWord {
        width: 4,
        number: u64::from(number),
    };
    Ok(format!(in alloc; "{number}")?)
}

/// The file of a page.
pub(crate) fn page_file(
    alloc: Global,
    root: &Path,
    area: Area,
    page: u32,
) -> Result<Path, OutOfMemory>
    requires room { length root.now.parts ≤ 61 }
    ensures value { IfOk result (λ path. path ≡ page_file root.now area page) }
    ensures held { IfOk result (λ path. Holds root.now path) }
    ensures deeper { IfOk result (λ path. length root.now.parts < length path.parts) }
{
    let folder = folder_of(alloc, root, area)?;
    let name = file_name(alloc, page / FILE_PAGES)?;
    let path = folder.below(alloc, &name)?;
    Ok(path)
}

fn all_upper(name: &[u8]) -> bool
    ensures { result ≡ list_all is_upper_hex name.now }
{
    name.iter()
        .all(|byte| matches!(byte, b'0'..=b'9' | b'A'..=b'F'))
}

fn is_name_length(length: usize) -> bool
    ensures { result ≡ is_name_length length }
{
    length >= 4 && length <= 6
}

fn has_extra_zero(name: &[u8]) -> bool
    ensures { result ≡ has_extra_zero name.now }
{
    name.len() > 4 && name[0] == b'0'
}

// Whether these are digits as `%04X` writes them, four to six.
fn is_file_name(name: &[u8]) -> bool
    ensures { result ≡ is_file_name name.now }
{
    all_upper(name) && is_name_length(name.len()) && !has_extra_zero(name)
}

/// The number of the file of this name, or `None` where it is that of no file.
#[tactic(auto, using(crate::proofs::NumberLemmas::number_steps))]
pub(crate) fn file_number(name: &str) -> Option<u32>
    ensures { result ≡ file_number name.now }
{
    if !is_file_name(name.as_bytes()) {
        return None;
    }
    u32::from_str_radix(name, 16).ok()
}
