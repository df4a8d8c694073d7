// Files that a truncation removes.
ghost use Rattle.std.specs.Prelude.{◌≡◌, ◌≢◌, ◌≤◌, ◌<◌, ◌^◌, length, true, IsTrue, Err, IsErrOf};
ghost use Rattle.std.specs.List.{list_all};
ghost use Rattle.cluster_tree.specs.PathValue.{PathValue, is_part};
ghost use Rattle.cluster_tree.specs.Folders.{lies_in};
ghost use Rattle.cluster_tree.specs.Causes.{Rose};
ghost use Rattle.cluster_tree.specs.Frame.{Came};
ghost use Rattle.file_edits.specs.Answers.{Does};
ghost use Rattle.file_edits.specs.Clearing.{in_turn};
ghost use Rattle.file_edits.specs.Own.{OnOwn};
ghost use Rattle.slru_replay.specs.Area.{is_of_area};
ghost use Rattle.slru_replay.specs.Cutting.{area_cut, file_cut, file_precedes, is_cut, members_cut, name_cut, precedes};

use crate::area::Area;
use crate::names::{FILE_PAGES, file_number, folder_of};
use cluster_tree::{FileFault, Names, Path, Tree};
use file_edits::{name_at, names_of, remove_file};
use std::alloc::Global;

// How many members a file has, and how many files of them there can be.
const FILE_MEMBERS: u32 = 52352;

const MEMBER_FILES: u32 = 82041;

// Whether a page precedes another, by the wrapped difference of their first entries.
#[tactic(auto, unfolding(crate::specs::Cutting::precedes))]
fn precedes(per_page: u32, page: u64, other: u32) -> bool
    requires small { page < 2 ^ 31 }
    requires entries { per_page ≤ 32768 }
    ensures { result ≡ precedes per_page page other }
{
    let first = page * u64::from(per_page) % (1 << 32);
    let second = u64::from(other) * u64::from(per_page) % (1 << 32);
    (first + (1 << 32) - second) % (1 << 32) >= 1 << 31
}

// Whether all pages of a file precede another page.
fn file_precedes(per_page: u32, number: u32, page: u32) -> bool
    requires small { number < 2 ^ 24 }
    requires entries { per_page ≤ 32768 }
    ensures { result ≡ file_precedes per_page number page }
{
    let first = u64::from(number) * u64::from(FILE_PAGES);
    precedes(per_page, first, page) && precedes(per_page, first + 31, page)
}

// Whether a file of members lies from that of the first, going round, up to but without that of the end.
#[tactic(auto, unfolding(crate::specs::Cutting::members_cut))]
fn members_cut(first: u32, last: u32, number: u32) -> bool
    ensures { result ≡ members_cut first last number }
{
    let begin = first / FILE_MEMBERS;
    let end = last / FILE_MEMBERS;
    number < MEMBER_FILES
        && (number + MEMBER_FILES - begin) % MEMBER_FILES
            < (end + MEMBER_FILES - begin) % MEMBER_FILES
}

// Whether the file of a number goes.
fn is_cut(area: Area, first: u32, last: u32, number: u32) -> bool
    requires { number < 2 ^ 24 }
    ensures { result ≡ is_cut area first last number }
{
    match area {
        Area::Status => file_precedes(32768, number, last),
        Area::Offsets => file_precedes(2048, number, last),
        Area::Members => members_cut(first, last, number),
    }
}

// Whether the file of a name goes.
#[tactic(auto, using(crate::proofs::NumberLemmas::below_steps))]
fn name_cut(area: Area, first: u32, last: u32, name: &str) -> bool
    ensures { result ≡ name_cut area first last name.now }
{
    match file_number(name) {
        None => false,
        Some(number) => is_cut(area, first, last, number),
    }
}

// Removes the file of a name from a folder, if it goes.
#[tactic(auto, using(crate::proofs::CutLemmas::one_steps))]
fn cut_file<F: Tree>(
    alloc: Global,
    tree: &mut F,
    folder: &Path,
    area: Area,
    first: u32,
    last: u32,
    name: &str,
) -> Result<(), FileFault>
    requires room { length folder.now.parts ≤ 63 }
    requires part { is_part name.now ≡ true }
    ensures exact { IsTrue F.tells → Does (file_cut area first last folder.now name.now
        (F.contents tree.old)) (F.contents tree.new) result }
    ensures frame { Came F.Tree tree.old tree.new }
    ensures own { IsTrue F.tells → OnOwn F.calls (lies_in folder.now) tree.old tree.new }
    ensures read_fault { IsErrOf result FileFault.ReadFault →
        Rose (F.failed_reads tree.old) (F.failed_reads tree.new) }
    ensures write_fault { IsErrOf result FileFault.WriteFault →
        Rose (F.failed_changes tree.old) (F.failed_changes tree.new) }
    ensures changed { IsTrue F.tells → (p : PathValue) → result ≢ Err (FileFault.Changed p) }
{
    if !name_cut(area, first, last, name) {
        return Ok(());
    }
    let path = folder.below(alloc, name)?;
    remove_file(alloc, tree, &path)
}

// Removes the files of these names that go.
fn cut_files<F: Tree>(
    alloc: Global,
    tree: &mut F,
    folder: &Path,
    area: Area,
    first: u32,
    last: u32,
    names: &Names,
) -> Result<(), FileFault>
    requires room { length folder.now.parts ≤ 63 }
    requires parts { list_all is_part names.now ≡ true }
    ensures exact { IsTrue F.tells → Does (in_turn (file_cut area first last folder.now) names.now
        (F.contents tree.old)) (F.contents tree.new) result }
    ensures frame { Came F.Tree tree.old tree.new }
    ensures own { IsTrue F.tells → OnOwn F.calls (lies_in folder.now) tree.old tree.new }
    ensures read_fault { IsErrOf result FileFault.ReadFault →
        Rose (F.failed_reads tree.old) (F.failed_reads tree.new) }
    ensures write_fault { IsErrOf result FileFault.WriteFault →
        Rose (F.failed_changes tree.old) (F.failed_changes tree.new) }
    ensures changed { IsTrue F.tells → (p : PathValue) → result ≢ Err (FileFault.Changed p) }
{
    for at in 0..names.len() {
        let name = name_at(names, at);
        cut_file(alloc, tree, folder, area, first, last, name)?;
    }
    Ok(())
}

/// Removes old files of an area. Of status and offsets those go of which the first and the last page
/// precede the page `last`, by the wrapped difference of their entries; `first` isn't looked at. Of
/// members those from the file of the member `first` up to but without that of `last`, going round.
/// An area whose folder isn't there has none.
///
/// Answers `NotFolder`, `Link` or `NameNotText` with the folder's path, and `IsFolder` or `Link` with
/// the first name that is to go and is no file.
pub fn cut_before<F: Tree>(
    alloc: Global,
    tree: &mut F,
    root: &Path,
    area: Area,
    first: u32,
    last: u32,
) -> Result<(), FileFault>
    requires room { length root.now.parts ≤ 61 }
    ensures exact { IsTrue F.tells → Does (area_cut root.now area first last
        (F.contents tree.old)) (F.contents tree.new) result }
    ensures frame { Came F.Tree tree.old tree.new }
    ensures own { IsTrue F.tells → OnOwn F.calls (is_of_area root.now area) tree.old tree.new }
    ensures read_fault { IsErrOf result FileFault.ReadFault →
        Rose (F.failed_reads tree.old) (F.failed_reads tree.new) }
    ensures write_fault { IsErrOf result FileFault.WriteFault →
        Rose (F.failed_changes tree.old) (F.failed_changes tree.new) }
    ensures changed { IsTrue F.tells → (p : PathValue) → result ≢ Err (FileFault.Changed p) }
{
    let folder = folder_of(alloc, root, area)?;
    let names = names_of(alloc, tree, &folder)?;
    cut_files(alloc, tree, &folder, area, first, last, &names)
}
