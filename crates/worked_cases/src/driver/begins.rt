// The line that says what a replay that can be started again begins from.
use case_lines::LineFault;
use cluster_tree::Path;
use memory_tree::MemoryTree;
use restart_start::start_again;
use rmgr_hooks::NoManager;
use std::alloc::Global;

/// `begins ROOT TEXT`: whether of such a replay of a cluster this is told: how many paths are listed, or why it isn't begun.
pub(crate) fn begins(
    alloc: Global,
    tree: &mut MemoryTree,
    root: &Path,
    wanted: &str,
) -> Result<bool, LineFault> {
    if root.len() > 61 {
        return Err(LineFault::NotALine);
    }
    let found = match start_again(alloc, tree, root, None::<&NoManager>) {
        Ok(begun) => format!(in alloc; "{} listed", begun.listed.listed().len())?,
        Err(fault) => format!(in alloc; "{fault}")?,
    };
    Ok(found.as_str() == wanted)
}
