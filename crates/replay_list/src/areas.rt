// Which paths are listed.
ghost use Rattle.std.specs.Prelude.{◌≡◌};
ghost use Rattle.mark_lines.specs.Paths.{parts_below};
ghost use Rattle.replay_list.specs.Areas.{is_area, is_listed};

use cluster_tree::Path;

/// Whether a folder of this name at the root is one that replay changes.
fn is_area(name: &str) -> bool
    ensures { result ≡ is_area name.now }
{
    name == "pg_xact" || name == "pg_multixact" || name == "global" || name == "base"
}

/// Whether a path below a root is listed.
pub(crate) fn is_listed(root: &Path, path: &Path) -> bool
    ensures { result ≡ is_listed (parts_below root.now path.now) }
{
    match path.part(root.len()) {
        Some(name) => { is_area(name) || (name == "backup_label" && path.len() == root.len() + 1) }
        None => false,
    }
}
