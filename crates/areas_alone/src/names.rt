// Which paths lie elsewhere.
ghost use Rattle.std.specs.Prelude.{◌≡◌};
ghost use Rattle.cluster_tree.specs.PathOrder.{path_eq};
ghost use Rattle.mark_lines.specs.Paths.{parts_below};
ghost use Rattle.replay_list.specs.Areas.{is_area};
ghost use Rattle.areas_alone.specs.Alone.{is_elsewhere, lies_elsewhere};

use cluster_tree::Path;

/// Whether two paths are the same.
pub(crate) fn are_same(one: &Path, other: &Path) -> bool
    ensures { result ≡ path_eq one.now other.now }
{
    one.is(other.is_absolute(), other.parts())
}

// Whether a folder of this name at the root is one that replay changes.
fn is_area(name: &str) -> bool
    ensures { result ≡ is_area name.now }
{
    name == "pg_xact" || name == "pg_multixact" || name == "global" || name == "base"
}

// Whether the first part behind the root is the name of no such folder.
fn is_elsewhere(root: &Path, path: &Path) -> bool
    ensures { result ≡ is_elsewhere (parts_below root.now path.now) }
{
    match path.part(root.len()) {
        Some(name) => !is_area(name),
        None => false,
    }
}

/// Whether a path lies below the root, and not at or below these folders.
pub(crate) fn lies_elsewhere(root: &Path, path: &Path) -> bool
    ensures { result ≡ lies_elsewhere root.now path.now }
{
    root.holds(path) && is_elsewhere(root, path)
}
