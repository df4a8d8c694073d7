// The numbers of the standard streams, held by files where the caller closed them.
use std::fs::File;
use std::rt::Files;

/// Files on the machine's empty device, as many as there are standard streams.
///
/// A file is opened under the least number that is free, so without these a file of a cluster could
/// come in the place of a stream that the caller closed, and be written into. They are open for
/// reading alone: a write to such a stream fails, as it does where a stream is closed.
#[derive(Drop)]
pub struct Held {
    _input: Option<File>,
    _output: Option<File>,
    _error: Option<File>,
}

fn empty_device<R: Files<File = File>>(rt: &R) -> Option<File> {
    File::open(rt, "/dev/null").ok()
}

impl Held {
    /// Before any other file is opened.
    pub fn open<R: Files<File = File>>(rt: &R) -> Held {
        Held {
            _input: empty_device(rt),
            _output: empty_device(rt),
            _error: empty_device(rt),
        }
    }
}
