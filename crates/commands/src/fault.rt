// Why words ask for no command.
use cluster_tree::Path;
use thiserror::Error;

/// Why words ask for no command that can be carried out, in the order in which it is looked for.
#[derive(Debug, Drop, Error)]
pub enum CommandFault {
    /// The words are in no command's grammar, or break one of its rules.
    #[error("the words are in no command's grammar")]
    Usage,
    /// A root or a folder has a part `..`.
    #[error("a path has a part '..'")]
    DotDot,
    /// A root has more than 61 parts, or a folder more than 62: this path; of more than 64 parts the
    /// first 64.
    #[error("the path {0} has too many parts")]
    TooDeep(Path),
    /// One of two roots is the other or lies in it.
    #[error("one root holds the other")]
    PathsOverlap,
    /// Memory is wanting.
    #[error("out of memory")]
    OutOfMemory,
}
