// The bytes of a pair's logs.
ghost use Rattle.pair_laws.specs.Bytes.{CopyLogIsBytes};

/// The files of the copy's log hold bytes.
pub fn copy_log_is_bytes()
    ensures { CopyLogIsBytes }
{}
