// Names without one of them.
ghost use Rattle.std.specs.Prelude.{◌≡◌, ◌≢◌, ℕ, List, [], ◌∷◌, ◌++◌, bytes_eq, cond, not, IfOk, OnOk, IfSome, IfNone};
ghost use Rattle.cluster_tree.specs.PathOrder.{path_eq};
ghost use Rattle.cluster_tree.specs.PathValue.{below};
ghost use Rattle.without_file.specs.Without.{others};

use cluster_tree::{Names, OutOfMemory, Path};
use std::alloc::Global;

/// Whether two paths are the same.
pub(crate) fn are_same(one: &Path, other: &Path) -> bool
    ensures { result ≡ path_eq one.now other.now }
{
    one.is(other.is_absolute(), other.parts())
}

/// The name of a path, where it lies right in this folder.
pub(crate) fn name_in<'a>(path: &'a Path, folder: &Path) -> Option<&'a str>
    ensures inside { IfSome result (λ name. path.now ≡ below folder.now (name.now ∷ [])) }
    ensures outside { IfNone result ((name : List ℕ) → below folder.now (name ∷ []) ≢ path.now) }
{
    let [above @ .., last] = path.parts() else {
        return None;
    };
    if folder.is(path.is_absolute(), above) {
        Some(last.as_str())
    } else {
        None
    }
}

// Adds a name, unless it is this one.
fn add(left: &mut Names, name: &str, other: &str) -> Result<(), OutOfMemory>
    ensures { OnOk result (left.new ≡ left.old ++ cond (not (bytes_eq other.now name.now)) (other.now ∷ []) []) }
{
    if other != name {
        left.push(other)?;
    }
    Ok(())
}

/// These names but for one.
pub(crate) fn without(alloc: Global, names: &Names, name: &str) -> Result<Names, OutOfMemory>
    ensures { IfOk result (λ left. left ≡ others name.now names.now) }
{
    let mut left = Names::new(alloc);
    for at in 0..names.len() {
        let Some(other) = names.get(at) else {
            unreachable!()
        };
        add(&mut left, name, other)?;
    }
    Ok(left)
}
