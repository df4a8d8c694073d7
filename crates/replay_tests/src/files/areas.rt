// The calls of slru_replay, and what each answers.
ghost use Rattle.std.specs.Prelude.{◌≤◌, length};

use crate::fault::RowFault;
use crate::files::answers::{ended, whole};
use crate::logs::main_cursor;
use crate::texts::{byte, number, words_of};
use block_refs::split_record;
use cluster_tree::{Path, Tree};
use slru_replay::{Area, add_multi, cut_before, set_status, zero_page};
use std::alloc::Global;

fn area_of(text: &str) -> Result<Area, RowFault> {
    match text {
        "status" => Ok(Area::Status),
        "offsets" => Ok(Area::Offsets),
        "members" => Ok(Area::Members),
        _ => Err(RowFault::NotAnArea),
    }
}

// A multixact by the main bytes of its record.
fn multixact<F: Tree>(
    alloc: Global,
    tree: &mut F,
    root: &Path,
    digits: &str,
) -> Result<String, RowFault>
    requires room { length root.now.parts ≤ 61 }
{
    let cursor = main_cursor(alloc, 6, 0x20, digits)?;
    let rec = cursor.current().ok_or(RowFault::NotARecord)?;
    let parts = split_record(rec)?;
    whole(alloc, add_multi(alloc, tree, root, rec, &parts))
}

/// What a call on the cluster at a root answers.
pub(crate) fn answer_area<F: Tree>(
    alloc: Global,
    tree: &mut F,
    root: &Path,
    call: &str,
) -> Result<String, RowFault>
    requires room { length root.now.parts ≤ 61 }
{
    let (verb, first, second, third) = words_of(call);
    let done = match verb {
        "status" => set_status(alloc, tree, root, number(first)?, byte(second)? % 4),
        "zeros" => zero_page(alloc, tree, root, area_of(first)?, number(second)?),
        "cut" => {
            let area = area_of(first)?;
            cut_before(alloc, tree, root, area, number(second)?, number(third)?)
        }
        "multixact" => return multixact(alloc, tree, root, first),
        _ => return Err(RowFault::NotACall),
    };
    ended(alloc, done)
}
