// The machine's files as every other crate sees them.
ghost use Rattle.std.specs.Prelude.{◌≡◌, ℕ, ◌≤◌, Bool, true, false, List, [], ◌∷◌, length, IfOk, OnOk, IsTrue};
ghost use Rattle.std.specs.FinMap.{insert, remove};
ghost use Rattle.std.specs.List.{list_all};
ghost use Rattle.cluster_tree.specs.PathValue.{is_part};
ghost use Rattle.cluster_tree.specs.Contents.{Contents, entry_at, FileEntry, FolderEntry, IsTree};
ghost use Rattle.cluster_tree.specs.Tree.{kind_of, file_of, size_of, range_of, write_refusal, cut_refusal, make_refusal, written, shortened, HasFailed, RefusesOnly, IsFreeOfListing, Counts, file_faults, list_faults, make_faults, range_faults, remove_faults};
ghost use Rattle.cluster_tree.specs.Folders.{list_refusal, remove_refusal, IsListing};
ghost use Rattle.cluster_tree.specs.Causes.{Meets, MeetsInto, Passes};
ghost use Rattle.cluster_tree.specs.Step.{MayBe};
ghost use Rattle.cluster_tree.specs.Run.{state_by, moment_by, OnlyReads, Goes, Makes, Pends};

use crate::{Names, OutOfMemory, Path};
use std::alloc::Global;
use thiserror::Error;

/// What stands at a path. A link or special file is no kind, but the refusal `Link`.
#[derive(Clone, Copy, Debug, PartialEq, Eq)]
pub enum Kind {
    /// Nothing.
    Absent,
    /// A file.
    File,
    /// A folder.
    Folder,
}

/// Why a call on a tree was refused or failed.
#[derive(Clone, Copy, Debug, PartialEq, Eq, Error)]
pub enum TreeFault {
    /// The device failed, and the call's own count of failures rose.
    #[error("the device failed")]
    Failed,
    /// Nothing stands there, or of what is to be made the folder above is missing.
    #[error("there is no such entry")]
    Absent,
    /// A folder stands where a file is needed.
    #[error("a folder stands there")]
    IsFolder,
    /// A file stands where a folder is needed.
    #[error("a file stands where a folder is needed")]
    NotFolder,
    /// A link or a special file stands there.
    #[error("a link or special file stands there")]
    Link,
    /// A folder holds a name that isn't UTF-8.
    #[error("a name isn't UTF-8")]
    NameNotText,
    /// What is to be made is there.
    #[error("the entry exists")]
    Exists,
    /// A folder that is to be removed holds something.
    #[error("the folder isn't empty")]
    NotEmpty,
    /// The place lies past the file's end.
    #[error("the place is past the end of the file")]
    PastEnd,
    /// There was no memory for the answer.
    #[error("out of memory")]
    OutOfMemory,
}

impl From<OutOfMemory> for TreeFault {
    ghost use Rattle.std.specs.Prelude.{◌≡◌};
    ghost use Rattle.cluster_tree.specs.declared.tree.TreeFault.TheVariants as fault;

    ghost from_gives = { λ _ e. e ≡ fault.OutOfMemory };

    fn from(_: OutOfMemory) -> TreeFault {
        TreeFault::OutOfMemory
    }
}

/// A changing call of a tree.
#[derive(Debug, Drop)]
pub enum ChangeCall {
    /// `write_at`: the path, the offset, and how many bytes were given.
    Write(Path, u64, u64),
    /// `cut`: the path and the size.
    Cut(Path, u64),
    /// `make_file`.
    MakeFile(Path),
    /// `make_folder`.
    MakeFolder(Path),
    /// `remove`.
    Remove(Path),
    /// `sync`.
    Sync,
}

/// The machine's files, as every other crate sees them. All calls but the reads `kind`, `list`,
/// `size` and `read_at` are changing calls. Each call answers `Failed` only where its own count of
/// failures rose, and every other refusal where the contents say so, which it then leaves as they
/// are.
pub trait Tree {
    ghost use Rattle.cluster_tree.specs.declared.tree.ChangeCall.{ChangeCall};
    ghost use Rattle.cluster_tree.specs.Stops.{Stops, no_stops};

    /// Whether it tells its contents.
    ghost tells: { Bool };

    /// What it holds, where it tells that.
    ghost contents: { Self → Contents };

    /// The changing calls so far, in order. One that failed and changed nothing may be missing, and
    /// a sync is listed only where it happened.
    ghost calls: { Self → List ChangeCall };

    /// What a stop may leave now, and might have left before, where it tells its contents.
    ghost stops: { Self → Stops } = { λ _. no_stops };

    /// How many reads have failed.
    ghost failed_reads: { Self → ℕ };

    /// How many changing calls have failed.
    ghost failed_changes: { Self → ℕ };

    /// What stands at a path. Answers `Link` where that is a link or special file.
    fn kind(&mut self, path: &Path) -> Result<Kind, TreeFault>
        ensures answer { IsTrue tells →
            Meets HasFailed (kind_of (entry_at (contents self.old) path.now)) result }
        ensures row { RefusesOnly (TreeFault.Link ∷ []) result }
        ensures cause { Counts failed_reads failed_changes self.old self.new result }
        ensures frame { OnlyReads contents calls stops failed_reads failed_changes self.old self.new };

    /// The names of what lies in a folder, in ascending order of their bytes, each a part of a path.
    /// Answers `Absent`, `NotFolder` or `Link` where no folder is there, then `NameNotText` where it
    /// holds a name that isn't UTF-8, and `OutOfMemory` where there is no memory for the names.
    fn list(&mut self, alloc: Global, path: &Path) -> Result<Names, TreeFault>
        ensures names { IsTrue tells → IfOk result (IsListing (contents self.old) path.now) }
        ensures parts { IfOk result (λ names. list_all is_part names ≡ true) }
        ensures refused { IsTrue tells →
            Passes IsFreeOfListing (list_refusal (entry_at (contents self.old) path.now)) result }
        ensures row { RefusesOnly list_faults result }
        ensures cause { Counts failed_reads failed_changes self.old self.new result }
        ensures frame { OnlyReads contents calls stops failed_reads failed_changes self.old self.new };

    /// The size of a file in bytes. Answers `Absent`, `IsFolder` or `Link` where no file is there.
    fn size(&mut self, path: &Path) -> Result<u64, TreeFault>
        ensures answer { IsTrue tells →
            Meets HasFailed (size_of (file_of (entry_at (contents self.old) path.now))) result }
        ensures row { RefusesOnly file_faults result }
        ensures cause { Counts failed_reads failed_changes self.old self.new result }
        ensures frame { OnlyReads contents calls stops failed_reads failed_changes self.old self.new };

    /// Fills `into` with the bytes of a file from the offset `at` on. Answers as `size` does, and
    /// then `PastEnd` where they reach past the file's end. What `into` holds after an error is
    /// open.
    fn read_at(&mut self, path: &Path, at: u64, into: &mut [u8]) -> Result<(), TreeFault>
        ensures answer { IsTrue tells → MeetsInto HasFailed
            (range_of (file_of (entry_at (contents self.old) path.now)) at (length into.old))
            into.new result }
        ensures row { RefusesOnly range_faults result }
        ensures cause { Counts failed_reads failed_changes self.old self.new result }
        ensures frame { OnlyReads contents calls stops failed_reads failed_changes self.old self.new };

    /// Writes over the bytes of a file from the offset `at` on, and past its end. Answers as `size`
    /// does, and then `PastEnd` where `at` is past the file's end. One that failed leaves open what
    /// the range holds.
    fn write_at(&mut self, path: &Path, at: u64, bytes: &[u8]) -> Result<(), TreeFault>
        ensures written { IsTrue tells →
            OnOk result (contents self.new ≡ written (contents self.old) path.now at bytes.now) }
        ensures refused { IsTrue tells →
            Passes HasFailed (write_refusal (contents self.old) path.now at) result }
        ensures row { RefusesOnly range_faults result }
        ensures made { IsTrue tells → Makes (ChangeCall.Write path.now at (length bytes.now))
            (state_by contents calls self.old) (state_by contents calls self.new) result }
        ensures pending { IsTrue tells → Pends (ChangeCall.Write path.now at (length bytes.now))
            (moment_by contents calls stops self.old) (moment_by contents calls stops self.new) result }
        ensures cause { Counts failed_changes failed_reads self.old self.new result }
        ensures frame { Goes contents calls stops failed_reads failed_changes self.old self.new };

    /// Cuts a file to a size in bytes. Answers as `size` does, and then `PastEnd` where the file is
    /// shorter. One that failed may have cut it.
    fn cut(&mut self, path: &Path, size: u64) -> Result<(), TreeFault>
        ensures cut { IsTrue tells →
            OnOk result (contents self.new ≡ shortened (contents self.old) path.now size) }
        ensures refused { IsTrue tells →
            Passes HasFailed (cut_refusal (contents self.old) path.now size) result }
        ensures whole { IsTrue tells → MayBe (cut_refusal (contents self.old) path.now size)
            (contents self.old) (shortened (contents self.old) path.now size) (contents self.new) }
        ensures row { RefusesOnly range_faults result }
        ensures made { IsTrue tells → Makes (ChangeCall.Cut path.now size)
            (state_by contents calls self.old) (state_by contents calls self.new) result }
        ensures pending { IsTrue tells → Pends (ChangeCall.Cut path.now size)
            (moment_by contents calls stops self.old) (moment_by contents calls stops self.new) result }
        ensures cause { Counts failed_changes failed_reads self.old self.new result }
        ensures frame { Goes contents calls stops failed_reads failed_changes self.old self.new };

    /// Makes an empty file. Answers `Exists` where an entry is there, and then `Absent`,
    /// `NotFolder` or `Link` where it would not lie in a folder. One that failed may have made it.
    fn make_file(&mut self, path: &Path) -> Result<(), TreeFault>
        ensures file { IsTrue tells →
            OnOk result (contents self.new ≡ insert (contents self.old) path.now (FileEntry [])) }
        ensures refused { IsTrue tells →
            Passes HasFailed (make_refusal (contents self.old) path.now) result }
        ensures row { RefusesOnly make_faults result }
        ensures made { IsTrue tells → Makes (ChangeCall.MakeFile path.now)
            (state_by contents calls self.old) (state_by contents calls self.new) result }
        ensures pending { IsTrue tells → Pends (ChangeCall.MakeFile path.now)
            (moment_by contents calls stops self.old) (moment_by contents calls stops self.new) result }
        ensures cause { Counts failed_changes failed_reads self.old self.new result }
        ensures frame { Goes contents calls stops failed_reads failed_changes self.old self.new };

    /// Makes an empty folder, with the refusals of `make_file`. One that failed may have made it.
    fn make_folder(&mut self, path: &Path) -> Result<(), TreeFault>
        ensures folder { IsTrue tells → OnOk result
            (contents self.new ≡ insert (contents self.old) path.now (FolderEntry false)) }
        ensures refused { IsTrue tells →
            Passes HasFailed (make_refusal (contents self.old) path.now) result }
        ensures row { RefusesOnly make_faults result }
        ensures made { IsTrue tells → Makes (ChangeCall.MakeFolder path.now)
            (state_by contents calls self.old) (state_by contents calls self.new) result }
        ensures pending { IsTrue tells → Pends (ChangeCall.MakeFolder path.now)
            (moment_by contents calls stops self.old) (moment_by contents calls stops self.new) result }
        ensures cause { Counts failed_changes failed_reads self.old self.new result }
        ensures frame { Goes contents calls stops failed_reads failed_changes self.old self.new };

    /// Removes a file or an empty folder. Answers `Absent` where nothing is there, `NotEmpty` where
    /// a folder holds something, is the root or the current folder, and `Link`. One that failed may
    /// have removed it.
    fn remove(&mut self, path: &Path) -> Result<(), TreeFault>
        ensures removed { IsTrue tells →
            OnOk result (contents self.new ≡ remove (contents self.old) path.now) }
        ensures refused { IsTrue tells →
            Passes HasFailed (remove_refusal (contents self.old) path.now) result }
        ensures row { RefusesOnly remove_faults result }
        ensures made { IsTrue tells → Makes (ChangeCall.Remove path.now)
            (state_by contents calls self.old) (state_by contents calls self.new) result }
        ensures pending { IsTrue tells → Pends (ChangeCall.Remove path.now)
            (moment_by contents calls stops self.old) (moment_by contents calls stops self.new) result }
        ensures cause { Counts failed_changes failed_reads self.old self.new result }
        ensures frame { Goes contents calls stops failed_reads failed_changes self.old self.new };

    /// Makes all that was changed durable. It changes no contents.
    fn sync(&mut self) -> Result<(), TreeFault>
        ensures same { IsTrue tells → contents self.new ≡ contents self.old }
        ensures row { RefusesOnly [] result }
        ensures made { IsTrue tells → Makes ChangeCall.Sync
            (state_by contents calls self.old) (state_by contents calls self.new) result }
        ensures pending { IsTrue tells → Pends ChangeCall.Sync
            (moment_by contents calls stops self.old) (moment_by contents calls stops self.new) result }
        ensures cause { Counts failed_changes failed_reads self.old self.new result }
        ensures frame { Goes contents calls stops failed_reads failed_changes self.old self.new };

    /// Whatever is there lies in a folder.
    ghost is_tree: { IsTrue tells → (tree : Self) → IsTree (contents tree) };
}
