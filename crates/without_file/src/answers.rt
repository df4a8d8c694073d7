// What is seen of answers, at the file's path or another.
ghost use Rattle.std.specs.Prelude.{◌≡◌};
ghost use Rattle.without_file.specs.Without.{seen_kind, unlisted, unseen};

use cluster_tree::{Kind, TreeFault};

/// What is seen of a kind.
pub(crate) fn seen_kind(same: bool, found: Result<Kind, TreeFault>) -> Result<Kind, TreeFault>
    ensures { result ≡ seen_kind same found }
{
    match found {
        Ok(Kind::File) if same => Ok(Kind::Absent),
        found => found,
    }
}

/// What is seen of an answer of a file.
pub(crate) fn unseen<T: Drop>(same: bool, found: Result<T, TreeFault>) -> Result<T, TreeFault>
    ensures { result ≡ unseen same found }
{
    match found {
        Ok(_) | Err(TreeFault::PastEnd | TreeFault::NotFolder) if same => Err(TreeFault::Absent),
        found => found,
    }
}

/// What is seen of an answer of a folder.
pub(crate) fn unlisted<T>(same: bool, found: Result<T, TreeFault>) -> Result<T, TreeFault>
    ensures { result ≡ unlisted same found }
{
    match found {
        Err(TreeFault::PastEnd | TreeFault::NotFolder) if same => Err(TreeFault::Absent),
        found => found,
    }
}
