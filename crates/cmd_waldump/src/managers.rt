// The list of resource managers.
ghost use Rattle.std.specs.Prelude.{◌≡◌, string_bytes, IfOk};
ghost use Rattle.cmd_waldump.specs.Waldump.{manager_list};

use rmgr_desc::add_manager_name;
use std::alloc::Global;
use wal_base::OutOfMemory;

// How many managers have a name of their own; those of extensions have a number.
const NAMED: u8 = 22;

/// The names of the resource managers, one per line. Answers `OutOfMemory` only for want of memory.
#[tactic(auto, using(crate::proofs::ManagerLemmas::list_steps))]
pub(crate) fn manager_list(alloc: Global) -> Result<String, OutOfMemory>
    ensures { IfOk result (λ text. string_bytes text ≡ manager_list) }
{
    let mut text = String::new(alloc);
    for manager in 0..NAMED {
        add_manager_name(&mut text, manager)?;
        text.push_str("\n")?;
    }
    Ok(text)
}
