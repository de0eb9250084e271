//! Why a reader that needs memory stopped.
ghost use Rattle.std.specs.Prelude.{◌≡◌};

use std::alloc::{AllocError, AllocFailed};

/// Why a reader stopped.
#[derive(Clone, Copy)]
pub enum ReadError {
    /// Memory was wanting.
    OutOfMemory,
    /// How many bytes are left where no text of the grammar goes on.
    Left(usize),
}

impl From<AllocError> for ReadError {
    ghost use Rattle.fsfs_base.specs.declared.grammar.read_error.ReadError.TheVariants.{OutOfMemory};

    ghost from_gives = { λ _ e. e ≡ OutOfMemory };

    fn from(_error: AllocError) -> ReadError {
        ReadError::OutOfMemory
    }
}

impl<T: Drop> From<AllocFailed<T>> for ReadError {
    ghost use Rattle.fsfs_base.specs.declared.grammar.read_error.ReadError.TheVariants.{OutOfMemory};

    ghost from_gives = { λ _ e. e ≡ OutOfMemory };

    fn from(_error: AllocFailed<T>) -> ReadError {
        ReadError::OutOfMemory
    }
}

impl From<usize> for ReadError {
    ghost use Rattle.fsfs_base.specs.declared.grammar.read_error.ReadError.TheVariants.{Left};

    ghost from_gives = { λ left e. e ≡ Left left };

    fn from(left: usize) -> ReadError {
        ReadError::Left(left)
    }
}
