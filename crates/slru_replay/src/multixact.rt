// Multixacts that are made.
ghost use Rattle.std.specs.Prelude.{◌≡◌, ◌≢◌, ◌≤◌, ◌<◌, ◌%◌, ◌∷◌, [], length, slice_get, is_some, Some, IsTrue, IfOk, Err, IsErrOf};
ghost use Rattle.cluster_tree.specs.PathValue.{PathValue};
ghost use Rattle.cluster_tree.specs.Causes.{Rose};
ghost use Rattle.cluster_tree.specs.Frame.{Came};
ghost use Rattle.block_refs.specs.Parts.{ArePartsOf};
ghost use Rattle.file_edits.specs.Answers.{Does};
ghost use Rattle.file_edits.specs.Own.{OnOwn};
ghost use Rattle.slru_replay.specs.Area.{is_of_area};
ghost use Rattle.slru_replay.specs.MultiXact.{create_in, is_of_multixacts, member_set, members_set, multi_added, offset_set};

use crate::area::Area;
use crate::pages::lay_on;
use block_refs::Parts;
use cluster_tree::{FileFault, Path, Tree};
use record_layouts::{Items, Member, MultiXactCreate};
use std::alloc::Global;
use wal_records::Record;

// Of how many multixacts a page has the offsets of their first members.
const PAGE_MULTIS: u32 = 2048;

// How many members a page has.
const PAGE_MEMBERS: u32 = 1636;

// Sets the offset of a multixact's first member.
fn set_offset<F: Tree>(
    alloc: Global,
    tree: &mut F,
    root: &Path,
    multi: u32,
    offset: u32,
) -> Result<(), FileFault>
    requires room { length root.now.parts ≤ 61 }
    ensures exact { IsTrue F.tells →
        Does (offset_set root.now multi offset (F.contents tree.old)) (F.contents tree.new) result }
    ensures frame { Came F.Tree tree.old tree.new }
    ensures own { IsTrue F.tells →
        OnOwn F.calls (is_of_area root.now Area.Offsets) tree.old tree.new }
    ensures read_fault { IsErrOf result FileFault.ReadFault →
        Rose (F.failed_reads tree.old) (F.failed_reads tree.new) }
    ensures write_fault { IsErrOf result FileFault.WriteFault →
        Rose (F.failed_changes tree.old) (F.failed_changes tree.new) }
    ensures changed { IsTrue F.tells → (p : PathValue) → result ≢ Err (FileFault.Changed p) }
{
    let page = multi / PAGE_MULTIS;
    let at = multi % PAGE_MULTIS * 4;
    lay_on(
        alloc,
        tree,
        root,
        Area::Offsets,
        page,
        at,
        &offset.to_le_bytes(),
    )
}

// Sets a member: its flag byte, and its transaction.
fn set_member<F: Tree>(
    alloc: Global,
    tree: &mut F,
    root: &Path,
    offset: u32,
    member: Member,
) -> Result<(), FileFault>
    requires room { length root.now.parts ≤ 61 }
    ensures exact { IsTrue F.tells →
        Does (member_set root.now offset member (F.contents tree.old)) (F.contents tree.new) result }
    ensures frame { Came F.Tree tree.old tree.new }
    ensures own { IsTrue F.tells →
        OnOwn F.calls (is_of_area root.now Area.Members) tree.old tree.new }
    ensures read_fault { IsErrOf result FileFault.ReadFault →
        Rose (F.failed_reads tree.old) (F.failed_reads tree.new) }
    ensures write_fault { IsErrOf result FileFault.WriteFault →
        Rose (F.failed_changes tree.old) (F.failed_changes tree.new) }
    ensures changed { IsTrue F.tells → (p : PathValue) → result ≢ Err (FileFault.Changed p) }
{
    let page = offset / PAGE_MEMBERS;
    let group = offset % PAGE_MEMBERS / 4 * 20;
    let place = offset % 4;
    let flags = [(member.status % 256) as u8];
    lay_on(
        alloc,
        tree,
        root,
        Area::Members,
        page,
        group + place,
        &flags,
    )?;
    let at = group + 4 + place * 4;
    lay_on(
        alloc,
        tree,
        root,
        Area::Members,
        page,
        at,
        &member.xid.to_le_bytes(),
    )
}

// The member at a place of a list.
#[tactic(auto, using(std::proofs::lemmas::Option::gets))]
fn member_at(members: &Items<'_, Member>, at: usize) -> Member
    requires { at < length members.now }
    ensures { slice_get members.now at ≡ Some result }
{
    match members.get(at) {
        Some(member) => member,
        None => unreachable!(),
    }
}

// Sets members from an offset on, which goes from 2^32 - 1 to 0.
fn set_members<F: Tree>(
    alloc: Global,
    tree: &mut F,
    root: &Path,
    offset: u32,
    members: &Items<'_, Member>,
) -> Result<(), FileFault>
    requires room { length root.now.parts ≤ 61 }
    ensures exact { IsTrue F.tells → Does (members_set root.now offset members.now
        (F.contents tree.old)) (F.contents tree.new) result }
    ensures frame { Came F.Tree tree.old tree.new }
    ensures own { IsTrue F.tells →
        OnOwn F.calls (is_of_area root.now Area.Members) tree.old tree.new }
    ensures read_fault { IsErrOf result FileFault.ReadFault →
        Rose (F.failed_reads tree.old) (F.failed_reads tree.new) }
    ensures write_fault { IsErrOf result FileFault.WriteFault →
        Rose (F.failed_changes tree.old) (F.failed_changes tree.new) }
    ensures changed { IsTrue F.tells → (p : PathValue) → result ≢ Err (FileFault.Changed p) }
{
    let mut place = offset;
    for at in 0..members.len() {
        let member = member_at(members, at);
        set_member(alloc, tree, root, place, member)?;
        place = place.wrapping_add(1);
    }
    Ok(())
}

/// Adds the multixact that a record makes (CREATE_ID): the offset of its first member, and its
/// members from there on, which go from offset 2^32 - 1 to 0. A page that isn't there, or in part, is
/// filled with zeros first, and its file made, with the folders on its way, where nothing stands. The
/// parts have to be those of the record. Tells whether the record's layout is whole: where it is
/// short, nothing is changed.
///
/// Answers `IsFolder` or `Link` with the path of a file, and `NotFolder` or `Link` with that of a
/// folder on its way which would have to be made or gone through for that, the root first.
pub fn add_multi<F: Tree>(
    alloc: Global,
    tree: &mut F,
    root: &Path,
    rec: &Record,
    parts: &Parts,
) -> Result<bool, FileFault>
    requires room { length root.now.parts ≤ 61 }
    requires parts { ArePartsOf rec.now parts.now }
    ensures exact { IsTrue F.tells → Does (multi_added root.now (create_in rec.now parts.now)
        (F.contents tree.old)) (F.contents tree.new) result }
    ensures whole { IfOk result (λ whole. whole ≡ is_some (create_in rec.now parts.now)) }
    ensures frame { Came F.Tree tree.old tree.new }
    ensures own { IsTrue F.tells →
        OnOwn F.calls (is_of_multixacts root.now) tree.old tree.new }
    ensures read_fault { IsErrOf result FileFault.ReadFault →
        Rose (F.failed_reads tree.old) (F.failed_reads tree.new) }
    ensures write_fault { IsErrOf result FileFault.WriteFault →
        Rose (F.failed_changes tree.old) (F.failed_changes tree.new) }
    ensures changed { IsTrue F.tells → (p : PathValue) → result ≢ Err (FileFault.Changed p) }
{
    match MultiXactCreate::read(parts.main_bytes(rec)) {
        None => Ok(false),
        Some(create) => {
            set_offset(alloc, tree, root, create.multi, create.offset)?;
            set_members(alloc, tree, root, create.offset, &create.members)?;
            Ok(true)
        }
    }
}
