// What stood at a path.
ghost use Rattle.std.specs.Prelude.{◌≡◌};

use cluster_tree::Path;

/// What stood at a path.
#[derive(Debug, Drop)]
pub enum Listed {
    /// A folder.
    Folder(Path),
    /// A file of a main fork, of so many bytes.
    Page(Path, u64),
    /// Any other file, of so many bytes.
    File(Path, u64),
}

impl Listed {
    ghost use Rattle.std.specs.Prelude.{◌+◌, ◌<◌, ◌^◌};
    ghost use Rattle.replay_list.specs.Lines.{files_behind, path_at};

    /// The path at which it stood.
    pub fn path(&self) -> &Path
        ensures value { result.now ≡ path_at self.now }
    {
        match self {
            Listed::Folder(path) => path,
            Listed::Page(path, _) => path,
            Listed::File(path, _) => path,
        }
    }

    /// How many files of no main fork are listed behind it, where so many are before it.
    pub(crate) fn files_behind(&self, files: u64) -> u64
        requires room { files + 1 < 2 ^ 64 }
        ensures value { result ≡ files_behind files self.now }
    {
        match self {
            Listed::Folder(_) | Listed::Page(..) => files,
            Listed::File(..) => files + 1,
        }
    }
}
