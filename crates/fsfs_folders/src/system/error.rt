// Why a call of the system was not done.
ghost use Rattle.std.specs.Prelude.{◌≡◌};

use std::alloc::{AllocError, AllocFailed};
use thiserror::Error;

/// Why a call of the system was not done.
#[derive(Clone, Copy, Debug, PartialEq, Eq, Error)]
pub enum CallError {
    /// Nothing has this name.
    #[error("nothing has this name")]
    NotFound,
    /// Something has this name already.
    #[error("something has this name")]
    Exists,
    /// What has the name is no file, or no folder.
    #[error("this is of another kind")]
    OtherKind,
    /// Another process holds the lock.
    #[error("another process holds the lock")]
    Locked,
    /// The system doesn't let this user do it.
    #[error("permission denied")]
    Denied,
    /// There was no memory for the answer.
    #[error("out of memory")]
    Memory,
    /// The system failed.
    #[error("the call failed")]
    Failed,
}

impl From<AllocError> for CallError {
    ghost use Rattle.fsfs_folders.specs.declared.system.error.CallError.TheVariants.{Memory};

    ghost from_gives = { λ _ e. e ≡ Memory };

    fn from(_error: AllocError) -> CallError {
        CallError::Memory
    }
}

impl<T: Drop> From<AllocFailed<T>> for CallError {
    ghost use Rattle.fsfs_folders.specs.declared.system.error.CallError.TheVariants.{Memory};

    ghost from_gives = { λ _ e. e ≡ Memory };

    fn from(_error: AllocFailed<T>) -> CallError {
        CallError::Memory
    }
}
