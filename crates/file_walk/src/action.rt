// What a rewind does at a path.
ghost use Rattle.std.specs.Prelude.{◌≡◌, bytes_eq, is_some};
ghost use Rattle.std.specs.Option.{option_copied};
ghost use Rattle.file_walk.specs.Actions.{action_at, block_action, both, by_kinds, cleared, file_action, is_control, is_kept, is_mark, is_version, made};

use crate::entry::EntryKind;
use crate::excluding::excluded;
use crate::relation::is_relation_file;
use cluster_tree::Path;

/// What a rewind does at a path.
#[derive(Clone, Copy, Debug, PartialEq, Eq)]
pub enum Action {
    /// What the target has stays, but for touched blocks of a main fork's file, which are copied.
    Nothing,
    /// The folder is made.
    MakeFolder,
    /// The source's file is copied whole.
    Copy,
    /// The blocks past the target's end are copied, and touched ones before it.
    Tail,
    /// The target's file is cut to the source's size, and touched blocks are copied.
    Cut,
    /// What the target has is removed.
    Remove,
    /// A file stands on one side and a folder on the other, and the rewind is refused.
    KindsDiffer,
}

// Whether it is the control file.
fn is_control(path: &Path) -> bool
    ensures { result ≡ is_control path.now.parts }
{
    match (path.part(0), path.part(1)) {
        (Some(first), Some(second)) => {
            path.len() == 2 && first == "global" && second == "pg_control"
        }
        _ => false,
    }
}

// Whether it is the mark of a run that isn't finished.
fn is_mark(path: &Path) -> bool
    ensures { result ≡ is_mark path.now.parts }
{
    match path.part(0) {
        Some(first) => {
            path.len() == 1
                && (first == "pg_rewind.unfinished"
                    || first == "pg_walreplay.unfinished"
                    || first == "pg_resetwal.unfinished")
        }
        None => false,
    }
}

// Whether its text ends in PG_VERSION.
fn is_version(path: &Path) -> bool
    ensures { result ≡ is_version path.now }
{
    let len = path.len();
    if len == 0 {
        return false;
    }
    match path.part(len - 1) {
        Some(last) => last.as_bytes().ends_with(b"PG_VERSION"),
        None => false,
    }
}

fn block_action(old: u64, new: u64) -> Action
    ensures { result ≡ block_action old new }
{
    if old < new {
        Action::Tail
    } else if new < old {
        Action::Cut
    } else {
        Action::Nothing
    }
}

fn file_action(path: &Path, old: u64, new: u64) -> Action
    ensures { result ≡ file_action path.now old new }
{
    if is_version(path) {
        Action::Nothing
    } else if is_relation_file(path).is_some() {
        block_action(old, new)
    } else {
        Action::Copy
    }
}

fn made(kind: EntryKind) -> Action
    ensures { result ≡ made kind }
{
    match kind {
        EntryKind::File(_) => Action::Copy,
        EntryKind::Folder => Action::MakeFolder,
    }
}

fn both(path: &Path, target: EntryKind, source: EntryKind) -> Action
    ensures { result ≡ both path.now target source }
{
    match (target, source) {
        (EntryKind::File(old), EntryKind::File(new)) => file_action(path, old, new),
        (EntryKind::Folder, EntryKind::Folder) => Action::Nothing,
        (EntryKind::File(_), EntryKind::Folder) | (EntryKind::Folder, EntryKind::File(_)) => {
            Action::KindsDiffer
        }
    }
}

// By what the target and the source have.
fn by_kinds(path: &Path, target: Option<&EntryKind>, source: Option<&EntryKind>) -> Action
    ensures { result
        ≡ by_kinds path.now (option_copied target.entry) (option_copied source.entry) }
{
    match (target, source) {
        (Some(target), Some(source)) => both(path, *target, *source),
        (Some(_), None) => Action::Remove,
        (None, Some(source)) => made(*source),
        (None, None) => Action::Nothing,
    }
}

fn cleared(target: Option<&EntryKind>) -> Action
    ensures { result ≡ cleared (option_copied target.entry) }
{
    match target {
        Some(_) => Action::Remove,
        None => Action::Nothing,
    }
}

fn is_kept(path: &Path) -> bool
    ensures { result ≡ is_kept path.now }
{
    is_control(path) || is_mark(path)
}

/// What a rewind does at a path from the roots on, where target and source have this there: `None`
/// for nothing. The control file and the marks of unfinished runs are left alone, and what is
/// excluded is removed, before the two sides are held against each other.
#[tactic(auto, unfolding(crate::specs::Actions::action_at))]
pub fn decide(path: &Path, target: Option<&EntryKind>, source: Option<&EntryKind>) -> Action
    ensures value { result
        ≡ action_at path.now (option_copied target.entry) (option_copied source.entry) }
{
    if is_kept(path) {
        Action::Nothing
    } else if excluded(path) {
        cleared(target)
    } else {
        by_kinds(path, target, source)
    }
}
