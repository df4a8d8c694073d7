// Which names have one file, and which files are there.
ghost use Rattle.storage_laws.specs.FileLaws.{CreatedFile, DroppedFiles, DroppedLength, OneBlock, OneFile};

/// Which names have one file and which are of one block, that `create` leaves a fork its first file,
/// and that `drop_relation` leaves a relation none.
pub fn file_laws()
    ensures one_file { OneFile }
    ensures one_block { OneBlock }
    ensures created { CreatedFile }
    ensures dropped { DroppedFiles }
    ensures length { DroppedLength }
{}
