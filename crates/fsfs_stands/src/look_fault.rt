//! Why a look at a revision prints nothing, or no more.
use fsfs_revision::Wrong;
use thiserror::Error;

/// What the bytes of the revisions say against a look.
#[derive(Clone, Copy, Debug, Error)]
pub enum LookFault {
    /// So many names of the path, from the root down, lead to nothing.
    #[error("there is no such node")]
    NotFound { names: usize },
    /// So many names of the path lead to a file, and more follow.
    #[error("a file is no directory")]
    NotDir { names: usize },
    /// A directory stands at the path.
    #[error("a directory is no file")]
    NotFile,
    /// Something is wrong with the bytes.
    #[error("the bytes are wrong")]
    Wrong(Wrong),
}
