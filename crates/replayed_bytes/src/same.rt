// Alike clusters with the same files.
ghost use Rattle.replayed_bytes.specs.Laws.{AlikeHaveSameFiles};

/// Alike clusters have the same files, byte for byte, where files of main forks have whole blocks alone,
/// the page of each block is the same, and files that tell a version are.
pub fn alike_have_same_files()
    ensures { AlikeHaveSameFiles }
{}
