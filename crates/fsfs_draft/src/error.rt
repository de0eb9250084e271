//! Why an edit was not done.
ghost use Rattle.std.specs.Prelude.{◌≡◌};

use crate::txn_noderevs::OwnError;
use fsfs_revision::{ReadError, Wrong};
use std::alloc::AllocError;
use thiserror::Error;

/// An edit was not done, or a part of it.
#[derive(Clone, Copy, Debug, Error)]
pub enum EditError {
    #[error("out of memory")]
    OutOfMemory,
    /// A call of the disk failed, and the book's count of faults rose.
    #[error("the disk failed")]
    DiskFault,
    /// A call of the bench failed, and its count of faults rose.
    #[error("the bench failed")]
    BenchFault,
    /// The bytes of a revision are wrong.
    #[error("the bytes are wrong")]
    Wrong(Wrong),
    /// There is no such node-revision or no such entry: the caller's condition was not met.
    #[error("there is no such node")]
    Lacking,
}

impl From<AllocError> for EditError {
    ghost use Rattle.fsfs_draft.specs.declared.error.EditError.TheVariants.{OutOfMemory};

    ghost from_gives = { λ _ e. e ≡ OutOfMemory };

    fn from(_error: AllocError) -> EditError {
        EditError::OutOfMemory
    }
}

impl From<OwnError> for EditError {
    ghost use Rattle.fsfs_draft.specs.Errors.{of_own};

    ghost from_gives = { λ error e. e ≡ of_own error };

    fn from(error: OwnError) -> EditError {
        match error {
            OwnError::OutOfMemory => EditError::OutOfMemory,
            OwnError::BenchFault => EditError::BenchFault,
        }
    }
}

impl From<ReadError> for EditError {
    ghost use Rattle.fsfs_draft.specs.Errors.{of_read};

    ghost from_gives = { λ error e. e ≡ of_read error };

    fn from(error: ReadError) -> EditError {
        match error {
            ReadError::OutOfMemory => EditError::OutOfMemory,
            ReadError::DiskFault => EditError::DiskFault,
            ReadError::Wrong(wrong) => EditError::Wrong(wrong),
        }
    }
}
