//! Why changed-path data was not read.
ghost use Rattle.std.specs.Prelude.{◌≡◌};

use std::alloc::{AllocError, AllocFailed};

/// An item is refused: where it begins, in bytes.
#[derive(Clone, Copy)]
pub struct ChangeFault {
    pub at: usize,
}

/// Changed-path data was not read.
#[derive(Clone, Copy)]
pub enum ChangeError {
    OutOfMemory,
    Fault(ChangeFault),
}

impl From<AllocError> for ChangeError {
    ghost use Rattle.fsfs_noderev.specs.declared.changes.error.ChangeError.TheVariants.{OutOfMemory};

    ghost from_gives = { λ _ e. e ≡ OutOfMemory };

    fn from(_error: AllocError) -> ChangeError {
        ChangeError::OutOfMemory
    }
}

impl<T: Drop> From<AllocFailed<T>> for ChangeError {
    ghost use Rattle.fsfs_noderev.specs.declared.changes.error.ChangeError.TheVariants.{OutOfMemory};

    ghost from_gives = { λ _ e. e ≡ OutOfMemory };

    fn from(_error: AllocFailed<T>) -> ChangeError {
        ChangeError::OutOfMemory
    }
}
