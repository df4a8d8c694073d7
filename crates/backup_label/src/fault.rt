// Why a label could not be read.
use thiserror::Error;

/// The first line of a label that isn't there with its newline, or isn't of a label's form.
#[derive(Clone, Copy, Debug, PartialEq, Eq, Error)]
pub enum LabelFault {
    /// Line 1, which says where replay starts.
    #[error("line 1 names no start of the log")]
    Start,
    /// Line 2, which says where the checkpoint's record stands.
    #[error("line 2 names no checkpoint")]
    Checkpoint,
}
