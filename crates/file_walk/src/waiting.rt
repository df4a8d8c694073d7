// What a walk has still to look at.
ghost use Rattle.std.specs.Prelude.{◌≡◌, length, string_bytes, true, IfOk, OnOk, IfErr};
ghost use Rattle.std.specs.List.{list_all};
ghost use Rattle.cluster_tree.specs.PathValue.{is_part};
ghost use Rattle.file_walk.specs.Faults.{IsMemory};
ghost use Rattle.file_walk.specs.Listed.{by_text};
ghost use Rattle.file_walk.specs.Waiting.{IsPlace, put_name, put_names, waiting_at};

use crate::fault::WalkFault;
use crate::place::{MAX_PARTS, Place};
use cluster_tree::{Names, OutOfMemory, Path};
use std::alloc::Global;
use std::collections::BTreeMap;

/// A path below a root that a listing has named.
#[derive(Drop)]
pub(crate) enum Waiting {
    /// One that can be looked at.
    At(Place),
    /// The first parts of one that has more than 64.
    TooDeep(Path),
}

/// What is still to be looked at, by the texts of the paths from the root on: of these the least comes
/// next, since what lies below a path has a greater text.
pub(crate) type Queue = BTreeMap<String, Waiting>;

// What waits for a name in a folder.
fn wait_for(alloc: Global, folder: &Place, name: &str) -> Result<Waiting, OutOfMemory>
    requires place { IsPlace folder.now }
    requires proper { is_part name.now ≡ true }
    ensures { IfOk result (λ waiting. waiting ≡ waiting_at folder.now name.now) }
{
    if folder.full.len() < MAX_PARTS {
        Ok(Waiting::At(folder.child(alloc, name)?))
    } else {
        Ok(Waiting::TooDeep(folder.first_parts(alloc, name)?))
    }
}

// Lets a name of a folder wait.
fn add_name(alloc: Global, queue: &mut Queue, folder: &Place, name: &str) -> Result<(), WalkFault>
    requires place { IsPlace folder.now }
    requires proper { is_part name.now ≡ true }
    ensures added { OnOk result (by_text string_bytes queue.new.entries
        ≡ put_name folder.now (by_text string_bytes queue.old.entries) name.now) }
    ensures memory { IfErr result IsMemory }
{
    let text = folder.text_of(alloc, name)?;
    let waiting = wait_for(alloc, folder, name)?;
    queue.insert(text, waiting)?;
    Ok(())
}

/// Lets the names of a folder wait.
pub(crate) fn add_names(
    alloc: Global,
    queue: &mut Queue,
    folder: &Place,
    names: &Names,
) -> Result<(), WalkFault>
    requires place { IsPlace folder.now }
    requires proper { list_all is_part names.now ≡ true }
    ensures added { OnOk result (by_text string_bytes queue.new.entries
        ≡ put_names folder.now (by_text string_bytes queue.old.entries) names.now) }
    ensures memory { IfErr result IsMemory }
{
    for at in 0..names.len() {
        let Some(name) = names.get(at) else {
            unreachable!()
        };
        add_name(alloc, queue, folder, name)?;
    }
    Ok(())
}
